//! The answers to `verdict` and to `why`: whether a descriptor grants a mask to a user, and why.
ghost use Rattle.std.specs.Prelude.{◌≡◌, ◌<◌, IfOk, length};
ghost use Rattle.sd_acl.specs.Descriptor.{descriptor_of};
ghost use Rattle.sd_answer.specs.Word.{IsFirstNoWord, texts};
ghost use Rattle.sd_commands.specs.Answer.{answer_of};
ghost use Rattle.sd_commands.specs.CommandAnswer.{AnswersFitting, AnswersMask, AnswersUser, AnswersWithLogon};
ghost use Rattle.sd_commands.specs.CommandAnswer.{AnswersWords, IsVerdict, IsWordFault, Plain, judged_of};
ghost use Rattle.sd_commands.specs.WholeVerdict.{verdict_outcome};

use crate::command_answer::{Answer, Answered, Outcome};
use crate::logon::{fits_logon, words_for};
use crate::nodes::NodesAsked;
use crate::settings::CommandContext;
use crate::words::{argument, items_from};
use sd_acl::Descriptor;
use sd_answer::{TokenError, read_token, verdict_line, why_lines};
use sd_check::{Token, Verdict, check};
use sd_line::{read_mask_in, requested};
use sd_sid::{Mask, Sid};
use sd_text::read_sid_text_in;
use sd_whole::WholeDescriptor;
use std::alloc::AllocError;

/// The descriptor that a verdict is on.
#[derive(Clone, Copy)]
pub(crate) enum Subject<'a> {
    Plain(&'a Descriptor),
    /// With its SACL and entries of every type.
    Whole(&'a WholeDescriptor),
    /// With all of these, for each node of a tree of object types.
    Nodes(&'a WholeDescriptor, &'a NodesAsked),
}

/// What an answer says of a verdict.
#[derive(Clone, Copy)]
pub(crate) enum Form {
    /// The verdict alone.
    Short,
    /// With it the reason of each bit.
    Explained,
}

impl CommandContext<'_> {
    /// The verdict on a descriptor, where the user, the mask and words are the arguments, with the groups of the logon
    /// behind them; or the fault of the first from the left that is invalid.
    pub(crate) fn verdict(&self, form: Form, on: Subject<'_>, arguments: &[&str]) -> Answered
        ensures { IfOk result (λ answer. AnswersUser self.now.settings.now form arguments.now
            (judged_of on.entry) (answer_of answer)) }
    {
        let user = argument(arguments, 0);
        match read_sid_text_in(self.settings.aliases, user) {
            Ok(sid) => self.for_user(form, on, sid, arguments),
            Err(error) => self.text_fault("sid", "USER", user, error),
        }
    }

    /// The verdict for this user, or the fault that nobody else can log on so.
    fn for_user(&self, form: Form, on: Subject<'_>, user: Sid, arguments: &[&str]) -> Answered
        ensures { IfOk result (λ answer. AnswersFitting self.now.settings.now form arguments.now
            (judged_of on.entry) user (answer_of answer)) }
    {
        if fits_logon(self.settings.logon, &user) {
            self.with_mask(form, on, user, arguments)
        } else {
            self.fault("sid", "USER", "no anonymous user")
        }
    }

    fn with_mask(&self, form: Form, on: Subject<'_>, user: Sid, arguments: &[&str]) -> Answered
        ensures { IfOk result (λ answer. AnswersMask self.now.settings.now form arguments.now
            (judged_of on.entry) user (answer_of answer)) }
    {
        let mask = argument(arguments, 1);
        match read_mask_in(self.settings.spelling, mask) {
            Ok(asked) => {
                let asked = requested(self.settings.kind, asked);
                self.with_words(form, on, user, asked, items_from(arguments, 2))
            }
            Err(error) => self.text_fault("mask", "MASK", mask, error),
        }
    }

    /// The verdict for the user and these words, with the groups of the logon behind them, or the fault of the first
    /// that is no word.
    fn with_words(
        &self,
        form: Form,
        on: Subject<'_>,
        user: Sid,
        asked: Mask,
        words: &[&str],
    ) -> Answered
        ensures { IfOk result (λ answer. AnswersWithLogon self.now.settings.now form (judged_of on.entry) user
            asked words.now (answer_of answer)) }
    {
        let words = words_for(self.alloc, self.settings.logon, words)?;
        match on {
            Subject::Plain(descriptor) => { self.for_token(form, descriptor, user, asked, &words) }
            Subject::Whole(descriptor) => {
                self.for_client(form, descriptor, None, user, asked, &words)
            }
            Subject::Nodes(descriptor, nodes) => {
                self.for_client(form, descriptor, Some(nodes), user, asked, &words)
            }
        }
    }

    /// The verdict on a plain descriptor for the token of the user and these words.
    fn for_token(
        &self,
        form: Form,
        descriptor: &Descriptor,
        user: Sid,
        asked: Mask,
        words: &[&str],
    ) -> Answered
        ensures { IfOk result (λ answer. AnswersWords self.now.settings.now form (Plain (descriptor_of descriptor.now))
            user asked words.now (answer_of answer)) }
    {
        match read_token(self.alloc, self.settings.aliases, user, words) {
            Ok(token) => self.verdict_for(form, descriptor, &token, asked),
            Err(TokenError::NoWord { place }) => self.word_fault(words, place),
            Err(TokenError::Memory) => Err(AllocError),
        }
    }

    /// The answer to words of which the one at the place is the first that is none.
    fn word_fault(&self, words: &[&str], place: usize) -> Answered
        requires first { IsFirstNoWord self.now.settings.now.aliases (texts words.now) place }
        requires within { place < length words.now }
        ensures { IfOk result (λ answer. IsWordFault self.now.settings.now words.now (answer_of answer)) }
    {
        let word = argument(words, place);
        let reason = self.word_reason(word)?;
        self.token_fault(place, word, reason.as_str())
    }

    /// The verdict's line, or with it the reasons.
    fn verdict_for(
        &self,
        form: Form,
        descriptor: &Descriptor,
        token: &Token,
        asked: Mask,
    ) -> Answered
        ensures { IfOk result (λ answer. IsVerdict self.now.settings.now form (descriptor_of descriptor.now) token.now
            asked (answer_of answer)) }
    {
        let mapping = &self.settings.mapping;
        let verdict = check(descriptor, mapping, token, asked);
        let outcome = outcome_of(&verdict);
        match form {
            Form::Short => {
                let lines = vec![in self.alloc; verdict_line(self.alloc, verdict)?]?;
                Ok(Answer::of(self.alloc, lines, outcome))
            }
            Form::Explained => {
                let lines = why_lines(self.alloc, mapping, descriptor, token, asked)?;
                Ok(Answer::of(self.alloc, lines, outcome))
            }
        }
    }
}

/// How an answer with this verdict ends.
pub fn outcome_of(verdict: &Verdict) -> Outcome
    ensures { result ≡ verdict_outcome verdict.now }
{
    match verdict {
        Verdict::Granted(_) => Outcome::Done,
        _ => Outcome::Refused,
    }
}
