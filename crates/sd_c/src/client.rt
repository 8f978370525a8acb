//! The call that keeps who asks about whole descriptors.

ghost use Rattle.std.specs.Prelude.{◌≡◌, ℕ, Ok, IfErr, IfOk, MatchOption};
ghost use Rattle.sd_answer.specs.Word.{texts as texts_of};
ghost use Rattle.sd_client.specs.Client.{ClientValue};
ghost use Rattle.sd_c.specs.declared.stop.NotRead.TheVariants.{WordsUtf8};
ghost use Rattle.sd_c.specs.Client.{AreWords, IsClientOf, IsClientSaid, IsUnended, KeepsClient, RefusesClient};
ghost use Rattle.sd_c.specs.Client.{RefusesDomainBytes, RefusesWords, parts_of};
ghost use Rattle.sd_c.specs.InDomain.{IsDomainArgument};
ghost use Rattle.sd_c.specs.Kept.{client_in};
ghost use Rattle.sd_c.specs.Written.{IsNotUtf8};

use crate::call_answer::{CheckAnswer, OK, not_read, unread, why_not};
use crate::handle::{Handle, Kept};
use crate::in_domain::domain_argument;
use crate::refusal::Refusal;
use crate::request::user_of;
use crate::stop::{NotRead, Stop};
use crate::text::utf8_of;
use sd_answer::TokenError;
use sd_client::{Client, read_client};
use sd_sid::Sid;
use sd_text::{Aliases, Domain};
use std::alloc::{AllocError, Global};
use std::sync::Arc;

/// Keeps who asks about whole descriptors ([MS-DTYP] 2.5.2): the client of the user whose SID is at the front of the
/// bytes, and of the words, as `read_client` parses them. The words are UTF-8, with a zero byte after each. With the
/// bytes of a domain's SID the aliases of that domain's accounts and groups are parsed too. Refused if the handle is in
/// use, if bytes of a domain are no domain's, if the user's don't start with a SID, if the words aren't UTF-8, if the
/// last one has no zero byte after it, at the first that says nothing of a client, or out of memory; then the handle is
/// unchanged.
#[unsafe(no_mangle)]
pub extern "C" fn hudarin_keep_client(
    alloc: Global,
    domain: &[u8],
    user: &[u8],
    words: &[u8],
    handle: &mut Handle,
) -> CheckAnswer
    ensures { KeepsClient domain.now user.now words.now handle.old handle.new result }
{
    if handle.is_there == 1 {
        return not_read(NotRead::ClientHandle);
    }
    match kept_client(alloc, domain, user, words) {
        Ok(kept) => {
            handle.put(kept);
            unread(OK, 0, 0, 0)
        }
        Err(why) => why_not(why),
    }
}

fn kept_client(alloc: Global, domain: &[u8], user: &[u8], words: &[u8]) -> Result<Box<Kept>, Stop>
    ensures ok { IfOk result (λ kept. (client : ClientValue) × IsClientOf domain.now user.now words.now client
        × (client_in kept.value ≡ Ok client)) }
    ensures err { IfErr result (λ why. RefusesClient domain.now user.now words.now why) }
{
    let known = domain_named(domain)?;
    let user = user_of(user)?;
    let text = words_text(words)?;
    let client = client_said(alloc, Aliases::in_domain(known), user, text)?;
    let client = Arc::new(alloc, client)?;
    Ok(Box::new(alloc, Kept::Client(client))?)
}

/// The domain whose SID is at the front of the bytes; none without bytes.
fn domain_named(bytes: &[u8]) -> Result<Option<Domain>, NotRead>
    ensures ok { IfOk result (λ known. IsDomainArgument bytes.now known) }
    ensures err { IfErr result (λ why. RefusesDomainBytes bytes.now why) }
{
    match domain_argument(bytes) {
        Ok(known) => Ok(known),
        Err(Refusal::Sid(fault)) => Err(NotRead::DomainSid(fault)),
        Err(_) => Err(NotRead::NoDomain),
    }
}

/// The words as one text.
fn words_text(bytes: &[u8]) -> Result<&str, NotRead>
    ensures ok { IfOk result (λ text. text.now ≡ bytes.now) }
    ensures err { IfErr result (λ why. (at : ℕ) × (why ≡ WordsUtf8 at) × IsNotUtf8 bytes.now at) }
{
    match utf8_of(bytes) {
        Ok(text) => Ok(text),
        Err(at) => Err(NotRead::WordsUtf8 { at }),
    }
}

/// The client of a user and of the words in a text.
fn client_said(alloc: Global, known: Aliases, user: Sid, text: &str) -> Result<Client, Stop>
    ensures ok { IfOk result (λ client. IsClientSaid known user text.now client) }
    ensures err { IfErr result (λ why. RefusesWords known text.now why) }
{
    let Some(words) = words_in(alloc, text)? else {
        return Err(Stop::NotRead(NotRead::Unended));
    };
    match read_client(alloc, known, user, &words) {
        Ok(client) => Ok(client),
        Err(TokenError::NoWord { place }) => {
            Err(Stop::NotRead(NotRead::NoWord { at: place as u64 }))
        }
        Err(TokenError::Memory) => Err(Stop::Memory),
    }
}

/// The words in a text; none of them if the last one has no zero byte after it.
fn words_in<'a>(alloc: Global, text: &'a str) -> Result<Option<Vec<&'a str>>, AllocError>
    ensures { IfOk result (λ words. MatchOption words (IsUnended text.entry.now)
        (λ all. AreWords text.entry.now (texts_of all.items))) }
{
    let mut words = parts_of(alloc, text)?;
    match words.pop() {
        Some(last) if last.is_empty() => Ok(Some(words)),
        _ => Ok(None),
    }
}

/// What is before, between and after the zero bytes of a text.
fn parts_of<'a>(alloc: Global, text: &'a str) -> Result<Vec<&'a str>, AllocError>
    ensures { IfOk result (λ parts. texts_of parts.items ≡ parts_of text.entry.now) }
{
    text.split('\0').collect(alloc)
}
