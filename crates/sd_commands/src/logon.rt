//! What Windows adds to a token by how its user logged on.
ghost use Rattle.std.specs.Prelude.{◌≡◌, IfNone, IfOk, IfSome, option_map};
ghost use Rattle.sd_answer.specs.Word.{texts};
ghost use Rattle.sd_commands.specs.Logon.{GivesLogon, GivesNoLogon, fits_logon, group_texts, logon_named, words_for};

use sd_sid::Sid;
use std::alloc::{AllocError, Global};

/// How a user logged on, by the names of LogonUser.
#[derive(Clone, Copy, PartialEq, Eq)]
pub enum Logon {
    /// At the machine.
    Interactive,
    /// Over the network, as to a file server.
    Network,
    /// By the task scheduler.
    Batch,
    /// As a service.
    Service,
    /// Without an account: the user is S-1-5-7.
    Anonymous,
}

/// How the user logged on, by the value of `--logon`, if it is given. `None`: the text names no kind of logon.
pub fn logon_given(text: Option<&str>) -> Option<Option<Logon>>
    ensures given { IfSome result (GivesLogon (option_map (λ text. text.now) text.entry)) }
    ensures none { IfNone result (GivesNoLogon (option_map (λ text. text.now) text.entry)) }
{
    match text {
        None => Some(None),
        Some(text) => match logon_named(text) {
            Some(logon) => Some(Some(logon)),
            None => None,
        },
    }
}

fn logon_named(text: &str) -> Option<Logon>
    ensures { result ≡ logon_named text.now }
{
    match text {
        "interactive" => Some(Logon::Interactive),
        "network" => Some(Logon::Network),
        "batch" => Some(Logon::Batch),
        "service" => Some(Logon::Service),
        "anonymous" => Some(Logon::Anonymous),
        _ => None,
    }
}

/// Whether the user can have logged on so, if a logon is given: without an account S-1-5-7 alone.
pub fn fits_logon(logon: Option<Logon>, user: &Sid) -> bool
    ensures { result ≡ fits_logon logon user.now }
{
    match logon {
        Some(Logon::Anonymous) => user.authority() == 5 && user.subs() == [7].as_slice(),
        _ => true,
    }
}

/// The words, and then the groups that the token has by the logon, if one is given ([MS-DTYP] 2.4.2.4).
pub fn words_for<'a>(
    alloc: Global,
    logon: Option<Logon>,
    words: &[&'a str],
) -> Result<Vec<&'a str>, AllocError>
    ensures { IfOk result (λ all. texts all.items ≡ words_for logon (texts words.now)) }
{
    let mut all = Vec::new(alloc);
    all.extend_from_slice(words)?;
    if let Some(logon) = logon {
        all.extend_from_slice(group_texts(logon))?;
    }
    Ok(all)
}

/// The groups, in SDDL.
fn group_texts(logon: Logon) -> &'static [&'static str]
    ensures { texts result.now ≡ group_texts logon }
{
    match logon {
        Logon::Interactive => &["S-1-1-0", "S-1-5-11", "S-1-5-15", "S-1-5-4", "S-1-2-0"],
        Logon::Network => &["S-1-1-0", "S-1-5-11", "S-1-5-15", "S-1-5-2"],
        Logon::Batch => &["S-1-1-0", "S-1-5-11", "S-1-5-15", "S-1-5-3", "S-1-2-0"],
        Logon::Service => &["S-1-1-0", "S-1-5-11", "S-1-5-15", "S-1-5-6", "S-1-2-0"],
        Logon::Anonymous => &["S-1-5-2"],
    }
}
