//! The words that say which groups a token has, where accounts are known.
ghost use Rattle.std.specs.Prelude.{◌≡◌, ◌++◌, ℕ, List, IfErr, IfNone, IfOk, IfSome};
ghost use Rattle.sd_accounts.specs.Accounts.{rows_of};
ghost use Rattle.sd_named.specs.Word.{HasNoAccount, IsCut, IsNamedWord, ending_of, is_other};
ghost use Rattle.sd_named.specs.declared.word.WordError.TheVariants.{Memory};

use crate::trustee::trustee_of;
use sd_accounts::{Accounts, NameError};
use sd_sid::Sid;
use sd_text::{Aliases, print_full_sid};
use std::alloc::{AllocError, Global};

/// A word with a SID in the place of a name.
#[derive(Drop)]
pub(crate) struct NamedWord {
    pub(crate) text: String,
    /// The SID, if it is of a trustee.
    pub(crate) sid: Option<Sid>,
    pub(crate) role: Role,
}

/// What the SID of a word is to the token ([MS-DTYP] 2.5.2), as the word's ending says.
#[derive(Clone, Copy)]
pub(crate) enum Role {
    /// An enabled group: without an ending.
    Enabled,
    /// A group for denies alone.
    DenyOnly,
    /// A group that counts for nothing.
    Disabled,
    /// A restricting SID.
    Restricting,
    /// A group of the device.
    Device,
}

impl Role {
    /// The ending of a word in the role.
    pub(crate) fn ending(self) -> &'static str
        ensures { result.now ≡ ending_of self }
    {
        match self {
            Role::Enabled => "",
            Role::DenyOnly => "=deny",
            Role::Disabled => "=off",
            Role::Restricting => "=restrict",
            Role::Device => "=device",
        }
    }
}

/// Why a word can't be named.
#[derive(Clone, Copy)]
pub(crate) enum WordError {
    /// Its trustee is nobody, or may be two.
    NoAccount(NameError),
    Memory,
}

impl From<AllocError> for WordError {
    ghost from_gives = { λ _ e. e ≡ Memory };

    fn from(_error: AllocError) -> WordError {
        WordError::Memory
    }
}

/// The word with a SID in the place of a name.
pub(crate) fn named_word(
    alloc: Global,
    accounts: &Accounts,
    known: Aliases,
    word: &str,
) -> Result<NamedWord, WordError>
    ensures named { IfOk result (IsNamedWord (rows_of accounts.now) known word.now) }
    ensures none { IfErr result (HasNoAccount (rows_of accounts.now) known word.now) }
{
    let (front, role) = cut(word);
    if is_other(word, front) {
        return Ok(NamedWord {
            text: String::from_str(alloc, word)?,
            sid: None,
            role,
        });
    }
    let sid = match trustee_of(accounts, known, front) {
        Ok(sid) => sid,
        Err(error) => return Err(WordError::NoAccount(error)),
    };
    let mut text = print_full_sid(alloc, &sid)?;
    text.push_str(role.ending())?;
    Ok(NamedWord {
        text,
        sid: Some(sid),
        role,
    })
}

/// What is before the word's ending, and the role that this says.
fn cut(word: &str) -> (&str, Role)
    ensures { IsCut word.now result.0.now result.1 }
{
    if let Some(front) = before(word, Role::DenyOnly) {
        return (front, Role::DenyOnly);
    }
    if let Some(front) = before(word, Role::Disabled) {
        return (front, Role::Disabled);
    }
    if let Some(front) = before(word, Role::Restricting) {
        return (front, Role::Restricting);
    }
    match before(word, Role::Device) {
        Some(front) => (front, Role::Device),
        None => (word, Role::Enabled),
    }
}

/// What is before the role's ending, if the word has it.
fn before(word: &str, role: Role) -> Option<&str>
    ensures found { IfSome result (λ front. word.now ≡ front.now ++ ending_of role) }
    ensures none { IfNone result ((front : List ℕ) → word.now ≡ front ++ ending_of role → ⊥) }
{
    word.strip_suffix(role.ending())
}

/// Whether the word, with this before its ending, is no trustee's: `user=deny`, a privilege, a claim or a level.
fn is_other(word: &str, front: &str) -> bool
    ensures { result ≡ is_other word.now front.now }
{
    let bytes = front.as_bytes();
    let begins_by_sign = matches!(bytes.first(), Some(b'+' | b'@'));
    word == "user=deny" || begins_by_sign || bytes.contains(&b'=')
}
