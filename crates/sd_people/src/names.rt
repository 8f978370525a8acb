//! The names by which SIDs are shown.
ghost use Rattle.std.specs.Prelude.{◌≡◌, ℕ, List, IfNone, IfOk, IfSome, OnOk, option_map, string_bytes};
ghost use Rattle.sd_sid.specs.Sid.{SidValue};
ghost use Rattle.sd_accounts.specs.Accounts.{rows_of};
ghost use Rattle.sd_people.specs.Names.{AreNames, AreRight, IsKept, IsNameOf, IsShownAs, has_byte, name_kept};
ghost use Rattle.sd_people.specs.Names.{names_in};

use sd_accounts::Accounts;
use sd_commands::escaped_word;
use sd_named::trustee_of;
use sd_sid::Sid;
use sd_text::Aliases;
use std::alloc::{AllocError, Global};
use std::collections::HashMap;

type Map = HashMap<Sid, Option<String>>;

/// What SIDs are shown by, where they have a name.
#[derive(Drop)]
pub(crate) struct Names {
    map: Map,
}

impl Names {
    /// What the SID is shown by; none where it has no name.
    pub(crate) fn of(&self, sid: &Sid) -> Option<&str>
        ensures { option_map (λ name. name.now) result ≡ names_in self.now sid.now }
    {
        match self.map.get(sid) {
            Some(name) => text_kept(name),
            None => None,
        }
    }
}

fn text_kept(name: &Option<String>) -> Option<&str>
    ensures { option_map (λ text. text.now) result ≡ name_kept name.now }
{
    match name {
        Some(name) => Some(name.as_str()),
        None => None,
    }
}

/// What the SIDs are shown by: each is looked up once.
pub(crate) fn names_of(
    alloc: Global,
    accounts: &Accounts,
    known: Aliases,
    sids: &[Sid],
) -> Result<Names, AllocError>
    ensures { IfOk result (λ names. AreNames (rows_of accounts.now) known (names_in names) sids.now) }
{
    let mut map = HashMap::new(alloc);
    for sid in sids {
        learn(alloc, accounts, known, &mut map, sid)?;
    }
    Ok(Names { map })
}

/// Looks the SID up, unless it is kept.
fn learn(
    alloc: Global,
    accounts: &Accounts,
    known: Aliases,
    map: &mut Map,
    sid: &Sid,
) -> Result<(), AllocError>
    ensures right { OnOk result (AreRight (rows_of accounts.now) known map.old
        → AreRight (rows_of accounts.now) known map.new) }
    ensures kept { OnOk result (IsKept map.new sid.now) }
    ensures others { OnOk result ((other : SidValue) → IsKept map.old other → IsKept map.new other) }
{
    if map.contains_key(sid) {
        return Ok(());
    }
    let name = shown_as(alloc, accounts, known, sid)?;
    map.insert(*sid, name)?;
    Ok(())
}

/// What the SID is shown by: its first name, if that means it alone.
fn shown_as(
    alloc: Global,
    accounts: &Accounts,
    known: Aliases,
    sid: &Sid,
) -> Result<Option<String>, AllocError>
    ensures { IfOk result (λ shown. IsShownAs (rows_of accounts.now) known sid.now
        (name_kept shown)) }
{
    match name_alone(accounts, known, sid) {
        // (a name is from outside: it neither writes a line of its own nor reaches a terminal)
        Some(name) => Ok(Some(escaped_word(alloc, name)?)),
        None => Ok(None),
    }
}

/// The SID's first name, if it means this SID alone and has no quotation mark.
fn name_alone<'a>(accounts: &'a Accounts, known: Aliases, sid: &Sid) -> Option<&'a str>
    ensures name { IfSome result (λ name. IsNameOf (rows_of accounts.entry.now) known sid.now name.now) }
    ensures none { IfNone result ((name : List ℕ) → IsNameOf (rows_of accounts.entry.now) known sid.now name → ⊥) }
{
    let name = accounts.name_of(sid)?;
    if has_byte(name, b'"') {
        return None;
    }
    match trustee_of(accounts, known, name) {
        Ok(one) => { if one.is(sid) { Some(name) } else { None } }
        Err(_) => None,
    }
}

pub(crate) fn has_byte(text: &str, byte: u8) -> bool
    ensures { result ≡ has_byte byte text.now }
{
    text.as_bytes().contains(&byte)
}
