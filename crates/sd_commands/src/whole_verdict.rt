//! The answers to `verdict` and `why` under `--whole`: whether a whole descriptor grants a mask to a client, and why.
ghost use Rattle.std.specs.Prelude.{◌≡◌, ◌<◌, IfOk, None, codes, length, string_bytes};
ghost use Rattle.sd_answer.specs.Word.{texts};
ghost use Rattle.sd_client.specs.Word.{IsFirstNoClientWord};
ghost use Rattle.sd_commands.specs.Answer.{AnswersFit, answer_of};
ghost use Rattle.sd_commands.specs.CommandAnswer.{AnswersUser, AnswersWholeUser, AnswersWords, AreVerdictsOn};
ghost use Rattle.sd_commands.specs.CommandAnswer.{IsClientFault, Whole, nodes_of};
ghost use Rattle.sd_commands.specs.Required.{missing_dacl};
ghost use Rattle.sd_commands.specs.WholeVerdict.{AnswersShortly, AnswersWhy, IsUndecided, IsWholeVerdict, fault_place};
ghost use Rattle.sd_commands.specs.WholeVerdict.{judged_outcome, question_of, short_line, specialize_fault_line};
ghost use Rattle.sd_commands.specs.WholeVerdict.{told_fault};
ghost use Rattle.sd_access.specs.Access.{whole_reasons, whole_verdict};

use crate::command_answer::{Answer, Answered, Outcome, fault_told};
use crate::descriptor::missing_dacl;
use crate::diagnostic::told_line;
use crate::limits::sacl_left_out;
use crate::nodes::NodesAsked;
use crate::settings::CommandContext;
use crate::verdict::{Form, Subject, outcome_of};
use crate::whole::entry_place;
use crate::words::argument;
use sd_access::{Question, check_whole, explain_whole, may_be_denied};
use sd_answer::{FAULT_NAMED, TokenError, entry_fault_line, explanation_lines, verdict_line};
use sd_check::Verdict;
use sd_client::{Client, read_client};
use sd_line::{Line, Value};
use sd_show::SACL_LEFT_OUT;
use sd_sid::{Mask, Sid};
use sd_specialize::{SpecializeError, SpecializeFault};
use sd_text::TextError;
use sd_types::TreeQuestion;
use sd_whole::WholeDescriptor;
use sd_whole_parse::read_whole_sddl;
use sd_whole_text::AclKind;
use std::alloc::{AllocError, Global};

impl CommandContext<'_> {
    /// The verdict on all that the text is ([MS-DTYP] 2.5.1.1), where the user, the mask and words are the arguments.
    pub(crate) fn whole_verdict(&self, form: Form, sddl: &str, arguments: &[&str]) -> Answered
        ensures { IfOk result (λ answer. AnswersWholeUser self.now.settings.now form sddl.now arguments.now
            (answer_of answer)) }
    {
        match read_whole_sddl(self.alloc, self.settings.aliases, sddl) {
            Ok(descriptor) => self.verdict_on_whole(form, &descriptor, arguments),
            Err(TextError::Fault { fault, place }) => self.sddl_fault("SDDL", sddl, fault, place),
            Err(TextError::Memory) => Err(AllocError),
        }
    }

    /// The verdict on the descriptor, if it has the list that is required.
    fn verdict_on_whole(
        &self,
        form: Form,
        descriptor: &WholeDescriptor,
        arguments: &[&str],
    ) -> Answered
        ensures { IfOk result (λ answer. AnswersFit (codes "SDDL")
            (missing_dacl self.now.settings.now.require_dacl descriptor.now.dacl)
            (AnswersUser self.now.settings.now form arguments.now (Whole descriptor.now None)) (answer_of answer)) }
    {
        match missing_dacl(self.settings, &descriptor.dacl) {
            None => self.verdict(form, Subject::Whole(descriptor), arguments),
            Some(missing) => self.fault("nodacl", "SDDL", missing),
        }
    }

    /// The verdict on a whole descriptor for the client of the user and these words, or that on each of these nodes
    /// ([MS-DTYP] 2.5.3.2).
    pub(crate) fn for_client(
        &self,
        form: Form,
        descriptor: &WholeDescriptor,
        nodes: Option<&NodesAsked>,
        user: Sid,
        asked: Mask,
        words: &[&str],
    ) -> Answered
        ensures { IfOk result (λ answer. AnswersWords self.now.settings.now form
            (Whole descriptor.now (nodes_of nodes.entry)) user asked words.now (answer_of answer)) }
    {
        match read_client(self.alloc, self.settings.aliases, user, words) {
            Ok(client) => self.parts_for_client(form, descriptor, nodes, &client, asked),
            Err(TokenError::NoWord { place }) => self.client_fault(words, place),
            Err(TokenError::Memory) => Err(AllocError),
        }
    }

    /// The answer to words of which the one at the place is the first that says nothing of a client.
    fn client_fault(&self, words: &[&str], place: usize) -> Answered
        requires first { IsFirstNoClientWord self.now.settings.now.aliases (texts words.now) place }
        requires within { place < length words.now }
        ensures { IfOk result (λ answer. IsClientFault self.now.settings.now words.now (answer_of answer)) }
    {
        let word = argument(words, place);
        let reason = self.word_reason(word)?;
        self.token_fault(place, word, reason.as_str())
    }

    fn parts_for_client(
        &self,
        form: Form,
        descriptor: &WholeDescriptor,
        nodes: Option<&NodesAsked>,
        client: &Client,
        asked: Mask,
    ) -> Answered
        ensures { IfOk result (λ answer. AreVerdictsOn self.now.settings.now form descriptor.now
            (nodes_of nodes.entry) client.now asked (answer_of answer)) }
    {
        let Some(NodesAsked { nodes, tree }) = nodes else {
            return self.verdict_for_client(form, descriptor, client, asked);
        };
        let principal_self = self.settings.principal_self;
        let question = TreeQuestion {
            client,
            types: tree,
            principal_self,
            mapping: &self.settings.mapping,
            asked,
        };
        self.nodes_answer(&question, nodes, descriptor)
    }

    fn verdict_for_client(
        &self,
        form: Form,
        descriptor: &WholeDescriptor,
        client: &Client,
        asked: Mask,
    ) -> Answered
        ensures { IfOk result (λ answer. IsWholeVerdict self.now.settings.now form descriptor.now client.now asked
            (answer_of answer)) }
    {
        let question = Question {
            client,
            chain: self.settings.chain.types(),
            principal_self: self.settings.principal_self,
            mapping: &self.settings.mapping,
            asked,
        };
        match form {
            Form::Short => self.short_answer(&question, descriptor),
            Form::Explained => self.explained_answer(&question, descriptor),
        }
    }

    fn short_answer(&self, question: &Question<'_>, descriptor: &WholeDescriptor) -> Answered
        ensures { IfOk result (λ answer.
            AnswersShortly descriptor.now (whole_verdict question.now descriptor.now) (answer_of answer)) }
    {
        match check_whole(self.alloc, question, descriptor) {
            Ok(verdict) => {
                let may_be_denied = may_be_denied(&verdict, descriptor);
                let line = short_line(self.alloc, may_be_denied, verdict)?;
                let lines = vec![in self.alloc; line]?;
                Ok(Answer::of(self.alloc, lines, judged_outcome(descriptor, &verdict)))
            }
            Err(SpecializeError::Fault(fault)) => self.undecided("SDDL", fault),
            Err(SpecializeError::Memory) => Err(AllocError),
        }
    }

    fn explained_answer(&self, question: &Question<'_>, descriptor: &WholeDescriptor) -> Answered
        ensures { IfOk result (λ answer.
            AnswersWhy descriptor.now (whole_reasons question.now descriptor.now) (answer_of answer)) }
    {
        match explain_whole(self.alloc, question, descriptor) {
            Ok(explained) => {
                let (plain, explanation) = (&explained.descriptor, &explained.explanation);
                let verdict = explanation.verdict();
                let may_be_denied = may_be_denied(&verdict, descriptor);
                let mut lines = explanation_lines(self.alloc, plain, explanation)?;
                lines.append(&mut sacl_left_out(self.alloc, may_be_denied)?)?;
                Ok(Answer::of(self.alloc, lines, judged_outcome(descriptor, &verdict)))
            }
            Err(SpecializeError::Fault(fault)) => self.undecided("SDDL", fault),
            Err(SpecializeError::Memory) => Err(AllocError),
        }
    }

    /// The answer where an entry of the DACL of the argument of this name can't be decided, or the list gets too large.
    pub(crate) fn undecided(&self, name: &str, fault: SpecializeFault) -> Answered
        ensures { IfOk result (λ answer. IsUndecided name.now fault (answer_of answer)) }
    {
        let reason = fault_reason(self.alloc, fault)?;
        let told = told_line(self.alloc, name, reason.as_str())?;
        fault_told(self.alloc, specialize_fault_line(self.alloc, fault)?, told)
    }
}

/// The outcome of a verdict on the descriptor: it isn't what was asked for where the rest of the SACL may deny.
fn judged_outcome(descriptor: &WholeDescriptor, verdict: &Verdict) -> Outcome
    ensures { result ≡ judged_outcome descriptor.now verdict.now }
{
    if may_be_denied(verdict, descriptor) {
        Outcome::Refused
    } else {
        outcome_of(verdict)
    }
}

/// The verdict's line, which says that the rest of the SACL is left out where that may deny.
fn short_line(alloc: Global, may_be_denied: bool, verdict: Verdict) -> Result<Line, AllocError>
    ensures { IfOk result (λ line. line ≡ short_line may_be_denied verdict) }
{
    match verdict {
        Verdict::Granted(mask) if may_be_denied => {
            Line::new(alloc, SACL_LEFT_OUT, vec![in alloc; Value::Mask(mask)]?)
        }
        _ => verdict_line(alloc, verdict),
    }
}

/// Which fault it is, by number and name, and of an entry which one.
fn fault_reason(alloc: Global, fault: SpecializeFault) -> Result<String, AllocError>
    ensures { IfOk result (λ text. string_bytes text ≡ told_fault fault) }
{
    let place = fault_place(alloc, fault)?;
    let number = fault.number();
    let name = fault.name();
    let reason = format!(in alloc; "{number} {name}{place}")?;
    Ok(reason)
}

fn fault_place(alloc: Global, fault: SpecializeFault) -> Result<String, AllocError>
    ensures { IfOk result (λ text. string_bytes text ≡ fault_place fault) }
{
    match fault {
        SpecializeFault::Refused(refused) => entry_place(alloc, AclKind::Dacl, refused.entry),
        SpecializeFault::TooLarge => Ok(String::new(alloc)),
    }
}

fn specialize_fault_line(alloc: Global, fault: SpecializeFault) -> Result<Line, AllocError>
    ensures { IfOk result (λ line. line ≡ specialize_fault_line fault) }
{
    match fault {
        SpecializeFault::Refused(refused) => {
            entry_fault_line(alloc, refused.entry as u64, refused.kind.name())
        }
        SpecializeFault::TooLarge => {
            let of = Value::word(alloc, "dacl")?;
            let number = Value::Number(fault.number() as u64);
            let name = Value::word(alloc, fault.name())?;
            Line::new(alloc, FAULT_NAMED, vec![in alloc; of, number, name]?)
        }
    }
}
