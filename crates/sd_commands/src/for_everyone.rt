//! The plain descriptor that an argument's text is whoever asks, under `--whole`.
ghost use Rattle.std.specs.Prelude.{◌≡◌, IfOk};
ghost use Rattle.sd_acl.specs.Descriptor.{descriptor_of};
ghost use Rattle.sd_commands.specs.ForEveryone.{IsForEveryone, IsOfEveryone, IsPlainFor, marks_of};
ghost use Rattle.sd_commands.specs.WholeVerdict.{everyone_context};
ghost use Rattle.sd_specialize.specs.Copies.{with_copies};
ghost use Rattle.sd_specialize.specs.Marked.{lent_marks, marked};
ghost use Rattle.sd_specialize.specs.Specialize.{Gives};
ghost use Rattle.sd_whole.specs.Plain.{has_sacl};

use crate::command_answer::Answer;
use crate::descriptor::{missing_dacl, note_sacl};
use crate::settings::CommandContext;
use sd_acl::Descriptor;
use sd_specialize::{
    Conditions, Context, SpecializeError, conditionals, marked_for_everyone, with_copies,
};
use sd_text::TextError;
use sd_whole::{TypedAce, WholeAcl, WholeDescriptor};
use sd_whole_parse::read_whole_sddl;
use std::alloc::AllocError;

/// A whole descriptor, and the plain one that it is.
#[derive(Drop)]
pub(crate) struct PlainForEveryone {
    pub(crate) descriptor: Descriptor,
    pub(crate) whole: WholeDescriptor,
}

/// What an argument is whoever asks.
#[derive(Drop)]
pub(crate) enum ForEveryone {
    Plain(PlainForEveryone),
    /// None that is taken, and this is the answer.
    Refused(Answer),
}

impl CommandContext<'_> {
    /// What the argument of this name is whoever asks ([MS-DTYP] 2.5.1.1, 2.5.3.2), with markers behind those of a list
    /// before it, and of whose SACL this is left out. The only error is out of memory.
    pub(crate) fn of_everyone(
        &self,
        name: &str,
        what: &str,
        before: &WholeAcl,
        sddl: &str,
    ) -> Result<ForEveryone, AllocError>
        ensures { IfOk result (IsOfEveryone name.now what.now before.now self.now.settings.now sddl.now) }
    {
        match read_whole_sddl(self.alloc, self.settings.aliases, sddl) {
            Ok(descriptor) => self.for_everyone(name, what, before, descriptor),
            Err(TextError::Fault { fault, place }) => {
                let answer = self.sddl_fault(name, sddl, fault, place)?;
                Ok(ForEveryone::Refused(answer))
            }
            Err(TextError::Memory) => Err(AllocError),
        }
    }

    /// What the descriptor, the argument of this name, is whoever asks.
    fn for_everyone(
        &self,
        name: &str,
        what: &str,
        before: &WholeAcl,
        descriptor: WholeDescriptor,
    ) -> Result<ForEveryone, AllocError>
        ensures { IfOk result (IsForEveryone name.now what.now before.now self.now.settings.now descriptor) }
    {
        let is_there = has_sacl(&descriptor);
        match self.plain_for(name, before, descriptor)? {
            ForEveryone::Plain(plain) => Ok(ForEveryone::Plain(plain)),
            ForEveryone::Refused(answer) => {
                let answer = note_sacl(self.alloc, name, what, is_there, answer)?;
                Ok(ForEveryone::Refused(answer))
            }
        }
    }

    /// What the descriptor is, before it is noted that a SACL is left out.
    fn plain_for(
        &self,
        name: &str,
        before: &WholeAcl,
        whole: WholeDescriptor,
    ) -> Result<ForEveryone, AllocError>
        ensures { IfOk result (IsPlainFor name.now before.now self.now.settings.now whole) }
    {
        if let Some(missing) = missing_dacl(self.settings, &whole.dacl) {
            return Ok(ForEveryone::Refused(self.fault("nodacl", name, missing)?));
        }
        match self.marked(before, &whole) {
            Ok(descriptor) => { Ok(ForEveryone::Plain(PlainForEveryone { descriptor, whole })) }
            Err(SpecializeError::Fault(fault)) => {
                Ok(ForEveryone::Refused(self.undecided(name, fault)?))
            }
            Err(SpecializeError::Memory) => Err(AllocError),
        }
    }

    /// The plain descriptor that the whole one is for the object types asked about, whoever asks, in which markers
    /// stand for conditions ([MS-DTYP] 2.5.3.2).
    fn marked(
        &self,
        before: &WholeAcl,
        descriptor: &WholeDescriptor,
    ) -> Result<Descriptor, SpecializeError>
        ensures { Gives descriptor_of result (marked (everyone_context self.now.settings.now)
            (marks_of before.now descriptor.now.dacl) descriptor.now) }
    {
        let (chain, principal_self) = (self.settings.chain.types(), self.settings.principal_self);
        let marks = self.marks_of(before, &descriptor.dacl)?;
        marked_for_everyone(self.alloc, chain, principal_self, &marks, descriptor)
    }

    /// The entries with a condition of two lists, for each of which stands a marker.
    pub(crate) fn marks_of<'a>(
        &self,
        before: &'a WholeAcl,
        dacl: &'a WholeAcl,
    ) -> Result<Vec<&'a TypedAce>, AllocError>
        ensures { IfOk result (λ marks. lent_marks marks.items ≡ marks_of before.now dacl.now) }
    {
        let mut marks = conditionals(self.alloc, before)?;
        let mut own = conditionals(self.alloc, dacl)?;
        marks.append(&mut own)?;
        Ok(marks)
    }

    /// The plain descriptor in which markers stand for these conditions, with copies of its entries for them.
    pub(crate) fn with_copies(
        &self,
        marks: &[&TypedAce],
        descriptor: Descriptor,
    ) -> Result<Descriptor, AllocError>
        ensures { IfOk result (λ more. descriptor_of more ≡ with_copies (everyone_context self.now.settings.now)
            (lent_marks marks.now) (descriptor_of descriptor)) }
    {
        let context = Context {
            conditions: Conditions::Unknown,
            chain: self.settings.chain.types(),
            principal_self: self.settings.principal_self,
        };
        with_copies(self.alloc, &context, marks, descriptor)
    }
}

pub(crate) fn has_sacl(descriptor: &WholeDescriptor) -> bool
    ensures { result ≡ has_sacl descriptor.now }
{
    !matches!(descriptor.sacl, WholeAcl::Absent)
}
