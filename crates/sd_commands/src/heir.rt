//! The answers to `create`, `inherit` and `stale`: what an object gets in a container, and what it inherits again.
ghost use Rattle.std.specs.Prelude.{◌≡◌, IfOk, codes, string_bytes};
ghost use Rattle.sd_create.specs.Propagation.{descriptor_after};
ghost use Rattle.sd_commands.specs.Answer.{IsFault, answer_of};
ghost use Rattle.sd_commands.specs.Diagnostic.{told_line};
ghost use Rattle.sd_commands.specs.Heir.{AnswersCreated, AnswersCreation, AnswersCreationBy, AnswersCreationFor};
ghost use Rattle.sd_commands.specs.Heir.{AnswersCreationIn, AnswersHeir, AnswersHeirAfter, AnswersInheritance};
ghost use Rattle.sd_commands.specs.Heir.{AnswersInheritanceOf, AnswersObject, all_rights, default_dacl, default_note};
ghost use Rattle.sd_commands.specs.Heir.{heir_fault_line, heir_kind, heir_reason, idle_line, idle_note, idle_notes};
ghost use Rattle.sd_commands.specs.Heir.{inheritance_in, system};
ghost use Rattle.sd_commands.specs.WholeText.{AnswersOfWhole};

use crate::command_answer::{Answered, fault_told};
use crate::diagnostic::told_line;
use crate::settings::CommandContext;
use crate::whole::{WORDED_BITS, acl_name, told_before};
use crate::words::argument;
use bitflags::Flags;
use sd_acl::{Ace, AceFlags, AceKind};
use sd_answer::FAULT_NAMED;
use sd_create::{
    AutoInherit, CreateError, CreateFault, Creation, CreatorToken, Inheritance, create, inherit,
};
use sd_inheritance::NodeKind;
use sd_line::{Line, Value};
use sd_sid::{Mask, Sid};
use sd_text::{TextError, read_sid_text_in};
use sd_usage::HeirCommand;
use sd_whole::{ListRevision, WholeAce, WholeAcl, WholeDescriptor, WholeList};
use sd_whole_parse::read_whole_sddl;
use sd_whole_text::AclKind;
use sd_wire::has_bits;
use std::alloc::{AllocError, Global};

/// DD: the DACL is the token's ([MS-DTYP] 2.4.6, Control).
const DEFAULTED: u16 = 0x0008;

/// PD: the DACL inherits nothing.
const DACL_PROTECTED: u16 = 0x1000;

/// PS: the SACL inherits nothing.
const SACL_PROTECTED: u16 = 0x2000;

/// GENERIC_ALL ([MS-DTYP] 2.4.3).
const ALL_RIGHTS: Mask = Mask(0x1000_0000);

impl CommandContext<'_> {
    /// What an object gets in the container that the text is, or inherits again, if it is the text ([MS-DTYP] 2.5.3.4).
    pub(crate) fn heir(&self, question: HeirCommand, text: &str, arguments: &[&str]) -> Answered
        ensures { IfOk result (λ answer. AnswersHeir question self.now.settings.now text.now arguments.now
            (answer_of answer)) }
    {
        match question {
            HeirCommand::Create => self.create(text, arguments),
            HeirCommand::Inherit | HeirCommand::Stale => self.inherit(question, text, arguments),
        }
    }

    // ---- what a new object gets

    fn create(&self, text: &str, arguments: &[&str]) -> Answered
        ensures { IfOk result (λ answer. AnswersOfWhole (codes "PARENT") self.now.settings.now text.now
            (AnswersCreationIn self.now.settings.now arguments.now) (answer_of answer)) }
    {
        match read_whole_sddl(self.alloc, self.settings.aliases, text) {
            Ok(parent) => self.create_in(&parent, arguments),
            Err(TextError::Fault { fault, place }) => self.sddl_fault("PARENT", text, fault, place),
            Err(TextError::Memory) => Err(AllocError),
        }
    }

    /// The arguments are what the creator gives, the user, and the group of its token.
    fn create_in(&self, parent: &WholeDescriptor, arguments: &[&str]) -> Answered
        ensures { IfOk result (λ answer. AnswersCreationIn self.now.settings.now arguments.now parent.now
            (answer_of answer)) }
    {
        let text = argument(arguments, 0);
        match read_whole_sddl(self.alloc, self.settings.aliases, text) {
            Ok(creator) => self.create_by(arguments, parent, &creator),
            Err(TextError::Fault { fault, place }) => self.sddl_fault(
                "CREATOR", text, fault, place,
            ),
            Err(TextError::Memory) => Err(AllocError),
        }
    }

    fn create_by(
        &self,
        arguments: &[&str],
        parent: &WholeDescriptor,
        creator: &WholeDescriptor,
    ) -> Answered
        ensures { IfOk result (λ answer. AnswersCreationBy self.now.settings.now arguments.now parent.now creator.now
            (answer_of answer)) }
    {
        let text = argument(arguments, 1);
        match read_sid_text_in(self.settings.aliases, text) {
            Ok(user) => self.create_for(arguments, parent, creator, user),
            Err(error) => self.text_fault("sid", "USER", text, error),
        }
    }

    fn create_for(
        &self,
        arguments: &[&str],
        parent: &WholeDescriptor,
        creator: &WholeDescriptor,
        user: Sid,
    ) -> Answered
        ensures { IfOk result (λ answer. AnswersCreationFor self.now.settings.now arguments.now parent.now creator.now
            user (answer_of answer)) }
    {
        let text = argument(arguments, 2);
        match read_sid_text_in(self.settings.aliases, text) {
            Ok(group) => self.created(parent, creator, user, group),
            Err(error) => self.text_fault("sid", "GROUP", text, error),
        }
    }

    /// The new object's descriptor, or why it gets none.
    fn created(
        &self,
        parent: &WholeDescriptor,
        creator: &WholeDescriptor,
        user: Sid,
        group: Sid,
    ) -> Answered
        ensures { IfOk result (λ answer. AnswersCreation self.now.settings.now parent.now creator.now user group
            (answer_of answer)) }
    {
        let dacl = default_dacl(self.alloc, user)?;
        let token = CreatorToken {
            owner: user,
            group,
            dacl: &dacl,
            owners: &[user],
            restore: false,
        };
        let creation = Creation {
            parent: Some(parent),
            creator: Some(creator),
            kind: self.heir_kind(),
            types: &[],
            flags: auto_inherit(),
            token: &token,
            mapping: &self.settings.mapping,
        };
        match create(self.alloc, &creation) {
            Ok(descriptor) => self.print_created(descriptor),
            Err(CreateError::Fault(fault)) => heir_fault(self.alloc, "CREATOR", fault),
            Err(CreateError::Memory) => Err(AllocError),
        }
    }

    /// What inherits is an object, or a container.
    fn heir_kind(&self) -> NodeKind
        ensures { result ≡ heir_kind self.now.settings.now }
    {
        if self.settings.object {
            NodeKind::Object
        } else {
            NodeKind::Container
        }
    }

    /// The text of the new object's descriptor, without the control bits that have none.
    fn print_created(&self, mut descriptor: WholeDescriptor) -> Answered
        ensures { IfOk result (λ answer. AnswersCreated self.now.settings.now descriptor (answer_of answer)) }
    {
        let note = default_note(self.alloc, &descriptor)?;
        descriptor.control &= WORDED_BITS;
        descriptor.resource_manager = 0;
        let answer = self.print_all("CREATOR", &descriptor)?;
        told_before(note, answer)
    }

    // ---- what an object inherits again

    fn inherit(&self, question: HeirCommand, text: &str, arguments: &[&str]) -> Answered
        ensures { IfOk result (λ answer. AnswersOfWhole (codes "CHILD") self.now.settings.now text.now
            (AnswersInheritanceOf question self.now.settings.now arguments.now) (answer_of answer)) }
    {
        match read_whole_sddl(self.alloc, self.settings.aliases, text) {
            Ok(child) => self.inherit_by(question, arguments, &child),
            Err(TextError::Fault { fault, place }) => self.sddl_fault("CHILD", text, fault, place),
            Err(TextError::Memory) => Err(AllocError),
        }
    }

    /// The argument is the container's descriptor.
    fn inherit_by(
        &self,
        question: HeirCommand,
        arguments: &[&str],
        child: &WholeDescriptor,
    ) -> Answered
        ensures { IfOk result (λ answer. AnswersInheritanceOf question self.now.settings.now arguments.now child.now
            (answer_of answer)) }
    {
        let text = argument(arguments, 0);
        match read_whole_sddl(self.alloc, self.settings.aliases, text) {
            Ok(parent) => self.inherit_from(question, child, &parent),
            Err(TextError::Fault { fault, place }) => self.sddl_fault("PARENT", text, fault, place),
            Err(TextError::Memory) => Err(AllocError),
        }
    }

    fn inherit_from(
        &self,
        question: HeirCommand,
        child: &WholeDescriptor,
        parent: &WholeDescriptor,
    ) -> Answered
        ensures { IfOk result (λ answer. AnswersInheritance question self.now.settings.now child.now parent.now
            (answer_of answer)) }
    {
        let notes = idle_notes(self.alloc, child)?;
        let answer = self.inherited(question, child, parent)?;
        told_before(notes, answer)
    }

    /// The descriptor after it inherited, or what differs in it, or why there is none.
    fn inherited(
        &self,
        question: HeirCommand,
        child: &WholeDescriptor,
        parent: &WholeDescriptor,
    ) -> Answered
        ensures { IfOk result (λ answer. AnswersObject (codes "CHILD")
            (AnswersHeirAfter question self.now.settings.now child.now)
            (descriptor_after (inheritance_in self.now.settings.now child.now parent.now)) (answer_of answer)) }
    {
        let inheritance = Inheritance {
            parent,
            child,
            kind: self.heir_kind(),
            types: &[],
            mapping: &self.settings.mapping,
        };
        match inherit(self.alloc, &inheritance) {
            Ok(after) => self.answer_after(question, child, &after),
            Err(CreateError::Fault(fault)) => heir_fault(self.alloc, "CHILD", fault),
            Err(CreateError::Memory) => Err(AllocError),
        }
    }

    fn answer_after(
        &self,
        question: HeirCommand,
        child: &WholeDescriptor,
        after: &WholeDescriptor,
    ) -> Answered
        ensures { IfOk result (λ answer. AnswersHeirAfter question self.now.settings.now child.now after.now
            (answer_of answer)) }
    {
        match question {
            HeirCommand::Stale => self.diff_between(child, after),
            HeirCommand::Create | HeirCommand::Inherit => self.print_all("CHILD", after),
        }
    }
}

/// The answer where an object gets no descriptor: why, said of the argument of this name.
fn heir_fault(alloc: Global, name: &str, fault: CreateFault) -> Answered
    ensures { IfOk result (λ answer. IsFault (heir_fault_line fault) (told_line name.now (heir_reason fault))
        (answer_of answer)) }
{
    let told = told_line(alloc, name, heir_reason(fault))?;
    let of = Value::word(alloc, "object")?;
    let number = Value::Number(fault.number() as u64);
    let name = Value::word(alloc, fault.name())?;
    let line = Line::new(alloc, FAULT_NAMED, vec![in alloc; of, number, name]?)?;
    fault_told(alloc, line, told)
}

fn heir_reason(fault: CreateFault) -> &'static str
    ensures { result.now ≡ heir_reason fault }
{
    match fault {
        CreateFault::Owner => "the owner isn't USER",
        CreateFault::NoOwner => "no owner, for whom CREATOR OWNER would stand",
        CreateFault::NoGroup => "no group, for which CREATOR GROUP would stand",
        CreateFault::TooLarge => {
            "with what is inherited, a list would take more than 65535 bytes"
        }
    }
}

/// What NTFS asks for.
fn auto_inherit() -> AutoInherit
    ensures { result.0 ≡ 0x03 }
{
    AutoInherit::DACL_AUTO_INHERIT.union(AutoInherit::SACL_AUTO_INHERIT)
}

/// The default DACL of a user's token, as Windows makes it.
#[tactic(auto, using(crate::proofs::DefaultDacl::default_fits))]
fn default_dacl(alloc: Global, user: Sid) -> Result<WholeAcl, AllocError>
    ensures { IfOk result (λ acl. acl ≡ default_dacl user) }
{
    let _known = user.authority();
    let entries = vec![in alloc; all_rights(user), all_rights(system())]?;
    let list = WholeList::new(ListRevision::Standard, entries).unwrap();
    Ok(WholeAcl::List(list))
}

fn all_rights(sid: Sid) -> WholeAce
    ensures { result ≡ all_rights sid }
{
    WholeAce::Plain(Ace {
        kind: AceKind::Allow,
        flags: AceFlags::empty(),
        mask: ALL_RIGHTS,
        sid,
    })
}

/// SYSTEM, S-1-5-18.
fn system() -> Sid
    ensures { result ≡ system }
{
    Sid::new(5, &[18]).unwrap()
}

/// That the DACL is the token's.
fn default_note(alloc: Global, descriptor: &WholeDescriptor) -> Result<String, AllocError>
    ensures { IfOk result (λ note. string_bytes note ≡ default_note descriptor.now) }
{
    if !has_bits(descriptor.control, DEFAULTED) {
        return Ok(String::new(alloc));
    }
    let what = "passes down no entry: the DACL grants all rights to USER and SYSTEM";
    told_line(alloc, "PARENT", what)
}

/// Which lists inherit nothing.
fn idle_notes(alloc: Global, child: &WholeDescriptor) -> Result<String, AllocError>
    ensures { IfOk result (λ notes. string_bytes notes ≡ idle_notes child.now) }
{
    let is_protected = has_bits(child.control, DACL_PROTECTED);
    let mut notes = idle_note(alloc, AclKind::Dacl, is_protected, &child.dacl)?;
    let is_protected = has_bits(child.control, SACL_PROTECTED);
    let of_sacl = idle_note(alloc, AclKind::Sacl, is_protected, &child.sacl)?;
    notes.push_str(of_sacl.as_str())?;
    Ok(notes)
}

fn idle_note(
    alloc: Global,
    kind: AclKind,
    is_protected: bool,
    acl: &WholeAcl,
) -> Result<String, AllocError>
    ensures { IfOk result (λ note. string_bytes note ≡ idle_note kind is_protected acl.now) }
{
    match acl {
        _ if is_protected => idle_line(alloc, kind, "protected"),
        WholeAcl::Null => idle_line(alloc, kind, "null"),
        WholeAcl::Absent | WholeAcl::List(_) => Ok(String::new(alloc)),
    }
}

fn idle_line(alloc: Global, kind: AclKind, why: &str) -> Result<String, AllocError>
    ensures { IfOk result (λ line. string_bytes line ≡ idle_line kind why.now) }
{
    let acl = acl_name(kind);
    let what = format!(in alloc; "the {acl} is {why}: it inherits nothing")?;
    told_line(alloc, "CHILD", what.as_str())
}
