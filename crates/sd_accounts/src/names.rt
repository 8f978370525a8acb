//! The names of accounts.

ghost use Rattle.std.specs.Prelude.{◌≡◌, Err, IfOk, IfSome, IfNone};
ghost use Rattle.std.specs.Option.{option_copied};
ghost use Rattle.sd_sid.specs.Sid.{SidValue};
ghost use Rattle.sd_accounts.specs.Accounts.{rows_of};
ghost use Rattle.sd_accounts.specs.Found.{FindsNext, FindsTwo};
ghost use Rattle.sd_accounts.specs.Kept.{row_of};
ghost use Rattle.sd_accounts.specs.Names.{IsNamedIn, NamesAs, NamesNone, NamesOne, NamesTwo, first_name, name_in};

use crate::accounts::Accounts;
use crate::naming::names_as;
use crate::row::Row;
use sd_sid::Sid;

/// Why a text names no one account.
#[derive(Clone, Copy, Debug, PartialEq, Eq)]
pub enum NameError {
    /// It names nobody.
    Unknown,
    /// It names two accounts.
    Ambiguous,
}

impl Accounts {
    /// The SID of the account that the text names ([MS-DTYP] 2.4.2). A text names the accounts whose name is alike but
    /// for the case of ASCII letters; a text without `\` and `@` also names those of a name `DOMAIN\text` or
    /// `text@domain`. `Ambiguous`: it names two SIDs.
    pub fn sid_named(&self, text: &str) -> Result<Sid, NameError>
        ensures one { IfOk result (NamesOne (rows_of self.now) text.now) }
        ensures unknown { result ≡ Err NameError.Unknown → NamesNone (rows_of self.now) text.now }
        ensures ambiguous { result ≡ Err NameError.Ambiguous → NamesTwo (rows_of self.now) text.now }
    {
        let mut found = None;
        for row in &self.rows {
            found = next_found(found, row, text)?;
        }
        found.ok_or(NameError::Unknown)
    }

    /// The first name in the file that a user or a group has ([MS-DTYP] 2.4.2).
    pub fn name_of(&self, sid: &Sid) -> Option<&str>
        ensures { option_copied result ≡ first_name (rows_of self.now) sid.now }
    {
        for row in &self.rows {
            if let Some(name) = row.name_of(sid) {
                return Some(name);
            }
        }
        None
    }
}

/// Who is named after one more row. The error is `Ambiguous`.
fn next_found(found: Option<Sid>, row: &Row, text: &str) -> Result<Option<Sid>, NameError>
    ensures next { IfOk result (FindsNext (row_of row.now) text.now found) }
    ensures unknown { ¬ (result ≡ Err NameError.Unknown) }
    ensures ambiguous { result ≡ Err NameError.Ambiguous → FindsTwo (row_of row.now) text.now found }
{
    let Some(sid) = row.sid_named(text) else {
        return Ok(found);
    };
    match found {
        Some(other) if !other.is(&sid) => Err(NameError::Ambiguous),
        _ => Ok(Some(sid)),
    }
}

/// The SID of this name, if the text names it.
fn sid_if_named(sid: &Sid, name: &str, text: &str) -> Option<Sid>
    ensures named { IfSome result (λ one. (sid.now ≡ one) × NamesAs text.now name.now) }
    ensures none { IfNone result (NamesAs text.now name.now → ⊥) }
{
    if names_as(text, name) {
        Some(*sid)
    } else {
        None
    }
}

impl Row {
    /// The SID to which the row gives a name by which the text names it.
    fn sid_named(&self, text: &str) -> Option<Sid>
        ensures named { IfSome result (IsNamedIn (row_of self.now) text.now) }
        ensures none { IfNone result ((sid : SidValue) → IsNamedIn (row_of self.now) text.now sid → ⊥) }
    {
        match self {
            Row::User { sid, name } => sid_if_named(sid, name, text),
            Row::Group { sid, name } => sid_if_named(sid, name, text),
            _ => None,
        }
    }

    /// The name that the row gives the SID.
    fn name_of(&self, sid: &Sid) -> Option<&str>
        ensures { option_copied result ≡ name_in sid.now (row_of self.now) }
    {
        match self {
            Row::User { sid: own, name } if own.is(sid) => Some(name),
            Row::Group { sid: own, name } if own.is(sid) => Some(name),
            _ => None,
        }
    }
}
