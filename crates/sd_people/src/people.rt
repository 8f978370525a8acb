//! What is said about each user.
ghost use Rattle.std.specs.Prelude.{◌≡◌, ◌||◌, ℕ, IfNone, IfOk, IfSome, List, Some, [], drop, is_some};
ghost use Rattle.sd_answer.specs.Word.{texts};
ghost use Rattle.sd_sid.specs.Sid.{SidValue};
ghost use Rattle.sd_accounts.specs.Accounts.{rows_of};
ghost use Rattle.sd_accounts.specs.Row.{AccountRow};
ghost use Rattle.sd_accounts.specs.Users.{named};
ghost use Rattle.sd_commands.specs.Answer.{answer_of};
ghost use Rattle.sd_named.specs.Arguments.{starts};
ghost use Rattle.sd_named.specs.declared.word.NamedWord.{NamedWord};
ghost use Rattle.sd_people.specs.Asked.{Changed, EachAsked, Granted, each_of};
ghost use Rattle.sd_people.specs.Change.{all_granted};
ghost use Rattle.sd_people.specs.Passed.{IsFit};
ghost use Rattle.sd_people.specs.People.{IsGrantedNothing, IsMemberOf, IsOfPeople, IsOfUser, IsOfUsers, IsWhy};
ghost use Rattle.sd_people.specs.People.{SaysChange, people_of};
ghost use Rattle.sd_people.specs.Reading.{AreReady, IsReadingOf, IsReady};
ghost use Rattle.sd_commands.specs.declared.settings.Settings.{Settings};

use crate::asking::OfEach;
use crate::change::{ALL_GRANTED, changes, granted_mask};
use crate::granted::{grants_of, leaves_out};
use crate::reading::{Reading, Readings, token_with};
use crate::wanted::search_for;
use sd_accounts::{Accounts, Membership, Search};
use sd_commands::{Answer, Outcome, Settings, answer_question, words_for};
use sd_line::{Line, Part};
use sd_named::{NamedError, NamedWords, Naming, lent};
use sd_sid::Sid;
use sd_usage::{DescriptorCommand, TextCommand};
use std::alloc::{AllocError, Global};

/// A line, and the part about whom it is, which stands at its end.
pub(crate) type Told = (Line, Part);

/// What is said about people.
#[derive(Drop)]
pub(crate) enum People {
    /// Lines, and whether something was left out.
    Told { told: Vec<Told>, left: bool },
    /// The answer to one of them is this, a fault.
    Fault(Answer),
}

/// What is said of the users that may log on, who have these words beside their own groups.
pub(crate) fn people_asked(
    alloc: Global,
    accounts: &Accounts,
    settings: &Settings,
    each: OfEach<'_>,
    words: &[&str],
) -> Result<People, NamedError>
    ensures { IfOk result (λ people. IsOfPeople (rows_of accounts.now) settings.now
        (Some (each_of each.entry, texts words.now)) (people_of people)) }
{
    let known = settings.aliases;
    let naming = Naming {
        alloc,
        accounts,
        known,
    };
    let all = words_for(alloc, settings.logon, words)?;
    let words = naming.named_words(&all)?;
    let users = accounts.users(alloc)?;
    let readings = read_in(alloc, settings, each, &all)?;
    let mut search = search_in(alloc, accounts, each, &readings)?;
    let asker = Asker {
        naming,
        settings,
        words: &words,
        readings: &readings,
    };
    Ok(asker.of_all(each, &users, &mut search)?)
}

/// What is read once for all users, where they have no words.
fn read_in(
    alloc: Global,
    settings: &Settings,
    each: OfEach<'_>,
    words: &[&str],
) -> Result<Readings, AllocError>
    ensures { IfOk result (λ readings. (ones : List NamedWord) → (words.now ≡ [] → ones ≡ [])
        → AreReady settings.now ones (each_of each.entry) readings) }
{
    if !words.is_empty() {
        return Ok(Readings {
            first: None,
            second: None,
        });
    }
    match each {
        OfEach::Granted { text, mask } => Ok(Readings {
            first: Reading::of(alloc, settings, text, mask)?,
            second: None,
        }),
        OfEach::Changed { old, new } => Ok(Readings {
            first: Reading::of(alloc, settings, old, ALL_GRANTED)?,
            second: Reading::of(alloc, settings, new, ALL_GRANTED)?,
        }),
    }
}

/// A search by which users are passed over, for what is read of a descriptor.
fn search_in<'a>(
    alloc: Global,
    accounts: &'a Accounts,
    each: OfEach<'_>,
    readings: &Readings,
) -> Result<Option<Search<'a>>, AllocError>
    ensures { IfOk result (λ search. (settings : Settings) (ones : List NamedWord)
        → AreReady settings ones (each_of each.entry) readings.now
        → IsFit (rows_of accounts.now) settings ones (each_of each.entry) search) }
{
    match (each, &readings.first) {
        (OfEach::Granted { .. }, Some(reading)) => search_for(alloc, accounts, reading),
        _ => Ok(None),
    }
}

#[derive(Clone, Copy)]
struct Asker<'a> {
    naming: Naming<'a>,
    settings: &'a Settings,
    words: &'a NamedWords,
    readings: &'a Readings,
}

impl<'a> Asker<'a> {
    /// What is said of the users in turn; or the first answer that is a fault.
    fn of_all(
        &self,
        each: OfEach<'_>,
        users: &[(Sid, &str)],
        search: &mut Option<Search<'_>>,
    ) -> Result<People, AllocError>
        requires fit { IsFit (rows_of self.now.naming.accounts.now) self.now.settings.now self.now.words.now
            (each_of each) search.old }
        requires ready { AreReady self.now.settings.now self.now.words.now (each_of each) self.now.readings.now }
        ensures { IfOk result (λ people. IsOfUsers (rows_of self.now.naming.accounts.now) self.now.settings.now
            self.now.words.now (each_of each.entry) (named users.now) (people_of people)) }
    {
        let has_logon = self.settings.logon.is_some();
        let mut told = Vec::new(self.naming.alloc);
        let mut left = false;
        for user in users {
            let starts = self.naming.starts(has_logon, &user.0, self.words)?;
            let Some(member) = self.member_asked(search, &starts)? else {
                continue;
            };
            match self.of_member(each, &member, &user.0, user.1)? {
                People::Fault(answer) => return Ok(People::Fault(answer)),
                People::Told {
                    told: mut more,
                    left: some,
                } => {
                    told.append(&mut more)?;
                    left = either(left, some);
                }
            }
        }
        Ok(People::Told { told, left })
    }

    /// The groups of who has these SIDs; none where nothing is granted to it, as the search says without asking `why`.
    fn member_asked<'s, 'b>(
        &self,
        search: &mut Option<Search<'s>>,
        own: &'b [Sid],
    ) -> Result<Option<Membership<'b>>, AllocError>
    where
        'a: 'b,
        's: 'b,
        ensures member { (settings : Settings) (words : List NamedWord) (each : EachAsked)
            → IsFit (rows_of self.now.naming.accounts.now) settings words each search.old
            → IfOk result (λ found. IfSome found (λ member.
            (member.rows ≡ rows_of self.now.naming.accounts.now) × (member.starts ≡ own.now))) }
        ensures passed { (rows : List AccountRow) (settings : Settings) (words : List NamedWord) (each : EachAsked)
            (user : SidValue) → own.now ≡ starts (is_some settings.logon) user words
            → IsFit rows settings words each search.old
            → IfOk result (λ found. IfNone found (IsGrantedNothing rows settings words each user)) }
        ensures fit { (rows : List AccountRow) (settings : Settings) (words : List NamedWord) (each : EachAsked)
            → IsFit rows settings words each search.old → IsFit rows settings words each search.new }
    {
        match search {
            Some(search) => search.find(own),
            None => Ok(Some(self.naming.accounts.membership(self.naming.alloc, own)?)),
        }
    }

    fn of_member(
        &self,
        each: OfEach<'_>,
        member: &Membership<'_>,
        user: &Sid,
        name: &str,
    ) -> Result<People, AllocError>
        requires member { IsMemberOf (rows_of self.now.naming.accounts.now) self.now.settings.now self.now.words.now
            user.now member.now }
        requires ready { AreReady self.now.settings.now self.now.words.now (each_of each) self.now.readings.now }
        ensures { IfOk result (λ people. IsOfUser (rows_of self.now.naming.accounts.now) self.now.settings.now
            self.now.words.now (each_of each.entry) (user.now, name.now) (people_of people)) }
    {
        match each {
            OfEach::Granted { text, mask } => self.granted(text, mask, member, user, name),
            OfEach::Changed { old, new } => self.changed(old, new, member, user, name),
        }
    }

    /// What the descriptor grants the user of the mask.
    fn granted(
        &self,
        text: &str,
        mask: &str,
        member: &Membership<'_>,
        user: &Sid,
        name: &str,
    ) -> Result<People, AllocError>
        requires member { IsMemberOf (rows_of self.now.naming.accounts.now) self.now.settings.now self.now.words.now
            user.now member.now }
        requires ready { IsReady self.now.settings.now self.now.words.now text.now mask.now
            self.now.readings.now.first }
        ensures { IfOk result (λ people. IsOfUser (rows_of self.now.naming.accounts.now) self.now.settings.now
            self.now.words.now (Granted text.now mask.now) (user.now, name.now) (people_of people)) }
    {
        let answer = self.why(&self.readings.first, text, mask, member, user)?;
        if matches!(answer.outcome, Outcome::Fault) {
            return Ok(People::Fault(answer));
        }
        let left = leaves_out(&answer.lines);
        let told = grants_of(self.naming.alloc, member, user, name, answer.lines)?;
        Ok(People::Told { told, left })
    }

    /// What the user gains and loses where the new descriptor takes the place of the old one.
    fn changed(
        &self,
        old: &str,
        new: &str,
        member: &Membership<'_>,
        user: &Sid,
        name: &str,
    ) -> Result<People, AllocError>
        requires member { IsMemberOf (rows_of self.now.naming.accounts.now) self.now.settings.now self.now.words.now
            user.now member.now }
        requires old { IsReady self.now.settings.now self.now.words.now old.now all_granted
            self.now.readings.now.first }
        requires new { IsReady self.now.settings.now self.now.words.now new.now all_granted
            self.now.readings.now.second }
        ensures { IfOk result (λ people. IsOfUser (rows_of self.now.naming.accounts.now) self.now.settings.now
            self.now.words.now (Changed old.now new.now) (user.now, name.now) (people_of people)) }
    {
        let old = self.why(&self.readings.first, old, ALL_GRANTED, member, user)?;
        let new = self.why(&self.readings.second, new, ALL_GRANTED, member, user)?;
        change_of(self.naming.alloc, user, name, old, new)
    }

    /// The answer to `why` for the user of this SID.
    fn why(
        &self,
        reading: &Option<Reading>,
        text: &str,
        mask: &str,
        member: &Membership<'_>,
        user: &Sid,
    ) -> Result<Answer, AllocError>
        requires member { IsMemberOf (rows_of self.now.naming.accounts.now) self.now.settings.now self.now.words.now
            user.now member.now }
        requires ready { IsReady self.now.settings.now self.now.words.now text.now mask.now reading.now }
        ensures { IfOk result (λ answer. IsWhy (rows_of self.now.naming.accounts.now) self.now.settings.now text.now
            mask.now self.now.words.now user.now (answer_of answer)) }
    {
        match reading {
            Some(reading) => self.why_read(reading, member, user),
            None => self.why_of_texts(text, mask, user),
        }
    }

    /// The answer for a user without words, of what is read already.
    fn why_read(
        &self,
        reading: &Reading,
        member: &Membership<'_>,
        user: &Sid,
    ) -> Result<Answer, AllocError>
        requires member { IsMemberOf (rows_of self.now.naming.accounts.now) self.now.settings.now self.now.words.now
            user.now member.now }
        ensures { IfOk result (λ answer. (text mask : List ℕ) → self.now.words.now ≡ []
            → IsReadingOf self.now.settings.now text mask reading.now
            → IsWhy (rows_of self.now.naming.accounts.now) self.now.settings.now text mask self.now.words.now user.now
            (answer_of answer)) }
    {
        let alloc = self.naming.alloc;
        let logged = after_first(member.starts());
        let token = token_with(alloc, user, logged, member.groups())?;
        reading.answer(alloc, self.settings, &token)
    }

    /// The answer by texts: of a whole descriptor, of a user with words or by a logon, and a fault.
    fn why_of_texts(&self, text: &str, mask: &str, user: &Sid) -> Result<Answer, AllocError>
        ensures { IfOk result (λ answer. IsWhy (rows_of self.now.naming.accounts.now) self.now.settings.now text.now
            mask.now self.now.words.now user.now (answer_of answer)) }
    {
        let alloc = self.naming.alloc;
        let has_logon = self.settings.logon.is_some();
        let named = self.naming.of_account(has_logon, user, mask, self.words)?;
        let arguments = lent(alloc, &named)?;
        let question = TextCommand::Descriptor(DescriptorCommand::Why);
        answer_question(alloc, self.settings, question, text, &arguments)
    }
}

fn after_first(sids: &[Sid]) -> &[Sid]
    ensures { result.now ≡ drop 1 sids.now }
{
    match sids {
        [_, rest @ ..] => rest,
        [] => sids,
    }
}

/// What the user gains and loses by the two answers; or the first of them that is a fault.
fn change_of(
    alloc: Global,
    user: &Sid,
    name: &str,
    old: Answer,
    new: Answer,
) -> Result<People, AllocError>
    ensures { IfOk result (λ people. SaysChange (user.now, name.now) (answer_of old) (answer_of new)
        (people_of people)) }
{
    if matches!(old.outcome, Outcome::Fault) {
        return Ok(People::Fault(old));
    }
    if matches!(new.outcome, Outcome::Fault) {
        return Ok(People::Fault(new));
    }
    let left = either(leaves_out(&old.lines), leaves_out(&new.lines));
    let (before, after) = (granted_mask(&old.lines), granted_mask(&new.lines));
    let told = changes(alloc, user, name, before, after)?;
    Ok(People::Told { told, left })
}

fn either(one: bool, other: bool) -> bool
    ensures { result ≡ (one || other) }
{
    one || other
}
