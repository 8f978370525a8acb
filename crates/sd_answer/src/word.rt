//! The words that make a token: a user's groups, restricting SIDs, privileges, and that the user counts for denies
//! alone.
ghost use Rattle.std.specs.Prelude.{◌≡◌, ◌<◌, ℕ, Err, [], IfSome, IfNone, IfOk, OnOk, length};
ghost use Rattle.sd_sid.specs.Sid.{SidValue};
ghost use Rattle.sd_answer.specs.declared.word.TokenError.TheVariants.{Memory};
ghost use Rattle.sd_answer.specs.Word.{AreGroups, IsFirstNoGroup, IsFirstNoWord, IsGroup, IsSidBefore, IsToken, IsWord};
ghost use Rattle.sd_answer.specs.Word.{parts_token, token_of, with_word};
ghost use Rattle.sd_answer.specs.Word.{texts as texts_of};

use sd_check::{GroupState, Privileges, Token};
use sd_sid::Sid;
use sd_text::{Aliases, read_sid_text_in};
use std::alloc::{AllocError, AllocFailed, Global};
use thiserror::Error;

/// What a word adds to the token ([MS-DTYP] 2.5.2).
#[derive(Clone, Copy, Debug)]
pub enum Word {
    /// `SID`, `SID=deny` or `SID=off`: a group.
    Group { sid: Sid, state: GroupState },
    /// `SID=restrict`: a restricting SID, which is no group.
    Restricting { sid: Sid },
    /// `+security`.
    Security,
    /// `+take`.
    TakeOwnership,
    /// `user=deny`: the user counts for denies alone.
    DenyOnlyUser,
}

/// Why there is no token.
#[derive(Clone, Copy, Debug, PartialEq, Eq, Error)]
pub enum TokenError {
    /// The text at this position is no such word, and those before it are; counted from 0.
    #[error("word {place} is no group, no restricting SID and no privilege")]
    NoWord { place: usize },
    /// Out of memory.
    #[error("memory was refused")]
    Memory,
}

impl From<AllocError> for TokenError {
    ghost from_gives = { λ _ e. e ≡ Memory };

    fn from(_error: AllocError) -> TokenError {
        TokenError::Memory
    }
}

impl<T: Drop> From<AllocFailed<T>> for TokenError {
    ghost from_gives = { λ _ e. e ≡ Memory };

    fn from(_error: AllocFailed<T>) -> TokenError {
        TokenError::Memory
    }
}

/// The SID that the text has before the ending.
fn sid_before(known: Aliases, text: &str, ending: &str) -> Option<Sid>
    ensures found { IfSome result (IsSidBefore known text.now ending.now) }
    ensures none { IfNone result ((sid : SidValue) → IsSidBefore known text.now ending.now sid → ⊥) }
{
    let front = text.strip_suffix(ending)?;
    match read_sid_text_in(known, front) {
        Ok(sid) => Some(sid),
        Err(_) => None,
    }
}

/// The group that the text is.
fn read_group(known: Aliases, text: &str) -> Option<(Sid, GroupState)>
    ensures group { IfSome result (IsGroup known text.now) }
    ensures none { IfNone result ((group : SidValue × GroupState) → IsGroup known text.now group → ⊥) }
{
    if let Some(sid) = sid_before(known, text, "") {
        return Some((sid, GroupState::Enabled));
    }
    if let Some(sid) = sid_before(known, text, "=deny") {
        return Some((sid, GroupState::DenyOnly));
    }
    let sid = sid_before(known, text, "=off")?;
    Some((sid, GroupState::Disabled))
}

/// The word that the text is, whose SID may have these aliases: a group, `SID`, `SID=deny` or `SID=off`, a restricting
/// SID, `SID=restrict`, a privilege, `+security` or `+take`, or `user=deny` ([MS-DTYP] 2.5.2). `None`: it is none of
/// these.
pub fn read_word(known: Aliases, text: &str) -> Option<Word>
    ensures word { IfSome result (IsWord known text.now) }
    ensures none { IfNone result ((word : Word) → IsWord known text.now word → ⊥) }
{
    if text == "+security" {
        return Some(Word::Security);
    }
    if text == "+take" {
        return Some(Word::TakeOwnership);
    }
    if text == "user=deny" {
        return Some(Word::DenyOnlyUser);
    }
    if let Some((sid, state)) = read_group(known, text) {
        return Some(Word::Group { sid, state });
    }
    let sid = sid_before(known, text, "=restrict")?;
    Some(Word::Restricting { sid })
}

/// The token of a user and of these words ([MS-DTYP] 2.5.2), whose SIDs may have these aliases. Each word is a group,
/// `SID`, `SID=deny` (it counts for denies alone) or `SID=off` (it counts for nothing), a restricting SID,
/// `SID=restrict`, a privilege, `+security` or `+take`, or `user=deny`: the user counts for denies alone. `NoWord` has
/// the position of the first that is none of these.
pub fn read_token(
    alloc: Global,
    known: Aliases,
    user: Sid,
    texts: &[&str],
) -> Result<Token, TokenError>
    ensures token { IfOk result (λ token. IsToken known user (texts_of texts.now) token) }
    ensures first { (place : ℕ) → result ≡ Err (TokenError.NoWord place)
        → IsFirstNoWord known (texts_of texts.now) place }
    ensures within { (place : ℕ) → result ≡ Err (TokenError.NoWord place) → place < length texts.now }
{
    let mut parts = TokenParts::new(alloc, user);
    for place in 0..texts.len() {
        match read_word(known, texts[place]) {
            Some(word) => parts.add(word)?,
            None => return Err(TokenError::NoWord { place }),
        }
    }
    Ok(parts.into_token())
}

/// A token in the making ([MS-DTYP] 2.5.2): of a user, and of the words so far.
#[derive(Drop)]
pub struct TokenParts {
    user: Sid,
    deny_only_user: bool,
    groups: Vec<(Sid, GroupState)>,
    restricting: Vec<Sid>,
    privileges: Privileges,
}

impl TokenParts {
    /// The token of the user, without groups and privileges, which nothing restricts.
    pub fn new(alloc: Global, user: Sid) -> TokenParts
        ensures { parts_token result ≡ token_of user [] }
    {
        TokenParts {
            user,
            deny_only_user: false,
            groups: Vec::new(alloc),
            restricting: Vec::new(alloc),
            privileges: Privileges::default(),
        }
    }

    /// Adds what a word adds: a restricting SID is no group. The only error is out of memory.
    pub fn add(&mut self, word: Word) -> Result<(), AllocError>
        ensures { OnOk result (parts_token self.new ≡ with_word (parts_token self.old) word) }
    {
        match word {
            Word::Group { sid, state } => self.groups.push((sid, state))?,
            Word::Restricting { sid } => self.restricting.push(sid)?,
            Word::Security => self.privileges.security = true,
            Word::TakeOwnership => self.privileges.take_ownership = true,
            Word::DenyOnlyUser => self.deny_only_user = true,
        }
        Ok(())
    }

    /// The groups so far, in order.
    pub fn groups(&self) -> &[(Sid, GroupState)]
        ensures { result.now ≡ (parts_token self.now).groups }
    {
        &self.groups
    }

    /// The token. Takes no memory.
    pub fn into_token(self) -> Token
        ensures { result ≡ parts_token self }
    {
        let token = Token::restricted(self.user, self.groups, self.restricting, self.privileges);
        if self.deny_only_user {
            token.of_deny_only_user()
        } else {
            token
        }
    }
}

/// The base of an analysis that these texts are ([MS-DTYP] 2.5.2), whose SIDs may have these aliases: each is a group,
/// as those of a token. `NoWord` has the position of the first that is none.
pub fn read_base(
    alloc: Global,
    known: Aliases,
    texts: &[&str],
) -> Result<Vec<(Sid, GroupState)>, TokenError>
    ensures base { IfOk result (λ groups. AreGroups known (texts_of texts.now) groups.items) }
    ensures no_group { (place : ℕ) → result ≡ Err (TokenError.NoWord place)
        → IsFirstNoGroup known (texts_of texts.now) place }
    ensures within { (place : ℕ) → result ≡ Err (TokenError.NoWord place) → place < length texts.now }
{
    let mut groups = Vec::new(alloc);
    for place in 0..texts.len() {
        match read_group(known, texts[place]) {
            Some(group) => groups.push(group)?,
            None => return Err(TokenError::NoWord { place }),
        }
    }
    Ok(groups)
}
