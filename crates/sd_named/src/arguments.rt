//! The arguments of a command, where accounts are known: SIDs in the place of names, and the groups that a user has.
ghost use Rattle.std.specs.Prelude.{◌≡◌, ℕ, List, IfErr, IfOk, map, string_bytes};
ghost use Rattle.std.specs.Borrow.{Bor};
ghost use Rattle.sd_answer.specs.Word.{texts};
ghost use Rattle.sd_accounts.specs.Accounts.{rows_of};
ghost use Rattle.sd_named.specs.Arguments.{AreAdded, AreNamedWords, AreOfAccount, AreOfUser, AreOfWords};
ghost use Rattle.sd_named.specs.Arguments.{IsUserError, IsWordsError, MayLogOn, sids_as, starts, word_text};
ghost use Rattle.sd_accounts.specs.Groups.{AreGroupsOf};
ghost use Rattle.sd_named.specs.Trustee.{Means};
ghost use Rattle.sd_named.specs.declared.arguments.NamedError.TheVariants.{Memory};

use crate::added::{added_texts, sids_as, starts};
use crate::logon::logon_groups;
use crate::trustee::trustee_of;
use crate::word::{NamedWord, Role, WordError, named_word};
use sd_accounts::{Accounts, NameError};
use sd_sid::Sid;
use sd_text::{Aliases, print_full_sid};
use std::alloc::{AllocError, AllocFailed, Global};
use std::marker::Model;

/// Why arguments can't be named.
#[derive(Clone, Copy, Debug, PartialEq, Eq)]
pub enum NamedError {
    /// The user is nobody, or may be two.
    User(NameError),
    /// The word at this place, counted from 0, is nobody's, or may be that of two.
    Word { place: usize, error: NameError },
    /// No user has an account with the user's SID.
    NoUser,
    /// The user's account is disabled: he can't log on.
    Disabled,
    /// Memory was refused.
    Memory,
}

impl From<AllocError> for NamedError {
    ghost from_gives = { λ _ e. e ≡ Memory };

    fn from(_error: AllocError) -> NamedError {
        NamedError::Memory
    }
}

impl<T: Drop> From<AllocFailed<T>> for NamedError {
    ghost from_gives = { λ _ e. e ≡ Memory };

    fn from(_error: AllocFailed<T>) -> NamedError {
        NamedError::Memory
    }
}

/// Words with SIDs in the place of names. Contracts see the list.
#[derive(Drop)]
pub struct NamedWords {
    ones: Vec<NamedWord>,
}

impl Model for NamedWords {
    ghost use Rattle.std.specs.Prelude.{List};
    ghost use Rattle.sd_named.specs.declared.word.NamedWord.{NamedWord};

    ghost Value = { List NamedWord };

    ghost view = { λ w. w.ones.items };
}

/// The accounts, and the aliases that SIDs may have.
#[derive(Clone, Copy)]
pub struct Naming<'a> {
    pub alloc: Global,
    pub accounts: &'a Accounts,
    pub known: Aliases,
}

impl Naming<'_> {
    /// The arguments about a user ([MS-DTYP] 2.4.2.1), `USER MASK WORD..`, with SIDs in the place of names, and after
    /// them the groups to which the user belongs, by its SID, by its logon or by groups of the words. Unless the words
    /// have the groups of a logon, Everyone and Authenticated Users are added too.
    pub fn of_user(
        &self,
        has_logon: bool,
        user: &str,
        mask: &str,
        words: &[&str],
    ) -> Result<Vec<String>, NamedError>
        ensures named { IfOk result (λ named. AreOfUser (rows_of self.now.accounts.now) self.now.known
            has_logon user.now mask.now (texts words.now)
            (map string_bytes named.items)) }
        ensures none { IfErr result
            (IsUserError (rows_of self.now.accounts.now) self.now.known user.now words.now) }
    {
        let sid = match self.user(user) {
            Ok(sid) => sid,
            Err(error) => return Err(error),
        };
        let ones = match self.named_words(words) {
            Ok(ones) => ones,
            Err(error) => return Err(error),
        };
        Ok(self.of_account(has_logon, &sid, mask, &ones)?)
    }

    /// The arguments about the user of this SID, with words in which SIDs stand in the place of names.
    pub fn of_account(
        &self,
        has_logon: bool,
        user: &Sid,
        mask: &str,
        words: &NamedWords,
    ) -> Result<Vec<String>, AllocError>
        ensures { IfOk result (λ named. AreOfAccount (rows_of self.now.accounts.now) has_logon user.now mask.now
            words.now (map string_bytes named.items)) }
    {
        let first = print_full_sid(self.alloc, user)?;
        let second = String::from_str(self.alloc, mask)?;
        let mut named = vec![in self.alloc; first, second]?;
        named.append(&mut self.word_texts(&words.ones)?)?;
        named.append(&mut self.added_texts(has_logon, *user, &words.ones)?)?;
        Ok(named)
    }

    /// The SIDs by which a user is in groups ([MS-DTYP] 2.4.2.4): its own, those of its logon unless the words have
    /// them, and the groups that the words give it. The only error is out of memory.
    pub fn starts(
        &self,
        has_logon: bool,
        user: &Sid,
        words: &NamedWords,
    ) -> Result<Vec<Sid>, AllocError>
        ensures { IfOk result (λ all. all.items ≡ starts has_logon user.now words.now) }
    {
        starts(self.alloc, has_logon, *user, &words.ones)
    }

    /// Words that say which groups a token has, with SIDs in the place of names.
    pub fn of_words(&self, words: &[&str]) -> Result<Vec<String>, NamedError>
        ensures named { IfOk result (λ named. AreOfWords (rows_of self.now.accounts.now) self.now.known
            (texts words.now) (map string_bytes named.items)) }
        ensures none { IfErr result (IsWordsError (rows_of self.now.accounts.now) self.now.known words.now) }
    {
        match self.named_words(words) {
            Ok(words) => Ok(self.word_texts(&words.ones)?),
            Err(error) => Err(error),
        }
    }

    /// The user whom the text means, with an account that isn't disabled.
    pub(crate) fn user(&self, text: &str) -> Result<Sid, NamedError>
        ensures user { IfOk result (λ sid. Means (rows_of self.now.accounts.now) self.now.known text.now sid
            × MayLogOn (rows_of self.now.accounts.now) sid) }
        ensures none { (words : List (Bor (List ℕ))) → IfErr result
            (IsUserError (rows_of self.now.accounts.now) self.now.known text.now words) }
    {
        let sid = match trustee_of(self.accounts, self.known, text) {
            Ok(sid) => sid,
            Err(error) => return Err(NamedError::User(error)),
        };
        if !self.accounts.is_user(&sid) {
            return Err(NamedError::NoUser);
        }
        if self.accounts.is_disabled(&sid) {
            return Err(NamedError::Disabled);
        }
        Ok(sid)
    }

    /// The words with SIDs in the place of names.
    pub fn named_words(&self, words: &[&str]) -> Result<NamedWords, NamedError>
        ensures named { IfOk result (AreNamedWords (rows_of self.now.accounts.now) self.now.known
            (texts words.now)) }
        ensures none { IfErr result (IsWordsError (rows_of self.now.accounts.now) self.now.known words.now) }
    {
        let mut ones = Vec::new(self.alloc);
        for place in 0..words.len() {
            match named_word(self.alloc, self.accounts, self.known, words[place]) {
                Ok(one) => ones.push(one)?,
                Err(WordError::NoAccount(error)) => return Err(NamedError::Word { place, error }),
                Err(WordError::Memory) => return Err(NamedError::Memory),
            }
        }
        Ok(NamedWords { ones })
    }

    /// The words of the groups that are added: the user's, and those that are reached from words for denies alone and
    /// from the device's.
    fn added_texts(
        &self,
        has_logon: bool,
        user: Sid,
        ones: &[NamedWord],
    ) -> Result<Vec<String>, AllocError>
        ensures { IfOk result (λ named. AreAdded (rows_of self.now.accounts.now) has_logon user ones.now
            (map string_bytes named.items)) }
    {
        let alloc = self.alloc;
        let mut own = logon_groups(alloc, has_logon, &user)?;
        let starts = starts(alloc, has_logon, user, ones)?;
        own.append(&mut self.accounts.groups_of(alloc, &starts)?)?;
        let denied = self.reached_as(Role::DenyOnly, ones)?;
        let of_device = self.reached_as(Role::Device, ones)?;
        let mut named = added_texts(alloc, Role::Enabled, ones, &own, &[])?;
        named.append(&mut added_texts(alloc, Role::DenyOnly, ones, &denied, &own)?)?;
        named.append(&mut added_texts(alloc, Role::Device, ones, &of_device, &[])?)?;
        Ok(named)
    }

    /// The groups that are reached from the words in the role.
    fn reached_as(&self, role: Role, ones: &[NamedWord]) -> Result<Vec<Sid>, AllocError>
        ensures { IfOk result (λ groups. AreGroupsOf (rows_of self.now.accounts.now) (sids_as role ones.now)
            groups.items) }
    {
        let sids = sids_as(self.alloc, role, ones)?;
        self.accounts.groups_of(self.alloc, &sids)
    }

    fn word_texts(&self, ones: &[NamedWord]) -> Result<Vec<String>, AllocError>
        ensures { IfOk result (λ named. map string_bytes named.items ≡ map word_text ones.now) }
    {
        let mut named = Vec::with_capacity(self.alloc, ones.len())?;
        for one in ones {
            named.push(one.text.clone()?)?;
        }
        Ok(named)
    }
}
