//! What standard error notes beside an answer: a word with two meanings, a text that is empty, a label that is left
//! out. It is for people: rows of tests show each text, and no definition says one.

use crate::remedies::{CHILDREN, UNNAMED_BITS};
use crate::token_notes::{push_lacking, push_lacking_of_nodes, push_repeated};
use bitflags::Flags;
use sd_acl::{Ace, AceFlags};
use sd_answer::entries_in;
use sd_arguments::TextRequest;
use sd_commands::{Settings, told_line};
use sd_line::{ObjectKind, read_mask_in, requested};
use sd_sid::{Mask, Sid};
use sd_text::print_full_sid;
use sd_usage::{DescriptorCommand, TextCommand};
use sd_whole::{WholeAce, WholeAcl, WholeKind};
use sd_whole_parse::{read_sddl_part, read_whole_sddl};
use std::alloc::{AllocError, Global};

/// CR, the one flag of an entry that plain lists don't have (CRITICAL_ACE_FLAG).
const CRITICAL: u8 = 0x20;

/// What the bits are that a request for a registry key leaves out.
const VIEW: &str = "KEY_WOW64_64KEY and KEY_WOW64_32KEY say which view is opened and are no rights";

/// The notes on an answer that is no fault. The only error is out of memory.
pub(crate) fn notes_on(
    alloc: Global,
    settings: &Settings,
    request: &TextRequest<'_>,
    text: &str,
) -> Result<String, AllocError> {
    let mut notes = String::new(alloc);
    let arguments = request.arguments;
    match (request.question, arguments) {
        (TextCommand::Descriptor(question), _) => {
            push_on_descriptor(alloc, settings, question, text, arguments, &mut notes)?;
        }
        (TextCommand::Types, [_tree, asked @ ..]) => {
            push_on_request(alloc, settings, text, asked, &mut notes)?;
            push_lacking_of_nodes(alloc, settings, text, arguments, &mut notes)?;
            push_repeated(alloc, settings, asked, &mut notes)?;
        }
        (TextCommand::Change(_), _) => push_empty(alloc, text, &mut notes)?,
        (TextCommand::FromBinary, _) if settings.without_bits && !settings.whole => {
            let note = told_line(alloc, "--without-bits", UNNAMED_BITS)?;
            notes.push_str(note.as_str())?;
        }
        _ => {}
    }
    Ok(notes)
}

fn push_on_descriptor(
    alloc: Global,
    settings: &Settings,
    question: DescriptorCommand,
    text: &str,
    arguments: &[&str],
    notes: &mut String,
) -> Result<(), AllocError> {
    match (question, arguments) {
        (DescriptorCommand::Verdict | DescriptorCommand::Why, _) => {
            push_flag(alloc, settings, text, notes)?;
            push_on_request(alloc, settings, text, arguments, notes)?;
            push_lacking(alloc, settings, text, arguments, notes)?;
            push_repeated(alloc, settings, arguments, notes)
        }
        (DescriptorCommand::Who, [mask, words @ ..]) => {
            push_empty(alloc, text, notes)?;
            push_limits(alloc, settings, true, text, notes)?;
            push_mask(alloc, mask, words, notes)?;
            push_view(alloc, settings, mask, false, notes)?;
            push_children(alloc, settings, text, notes)
        }
        (DescriptorCommand::Compare, [new, ..]) => {
            push_critical(alloc, settings, "OLD", text, notes)?;
            push_critical(alloc, settings, "NEW", new, notes)
        }
        (DescriptorCommand::Lint, _) => {
            push_critical(alloc, settings, "SDDL", text, notes)?;
            push_no_risk(alloc, settings, notes)
        }
        _ => push_empty(alloc, text, notes),
    }
}

/// What concerns a request for rights, where the arguments are a user, a mask and words.
fn push_on_request(
    alloc: Global,
    settings: &Settings,
    text: &str,
    arguments: &[&str],
    notes: &mut String,
) -> Result<(), AllocError> {
    push_empty(alloc, text, notes)?;
    push_limits(alloc, settings, false, text, notes)?;
    if let [_user, mask, words @ ..] = arguments {
        push_mask(alloc, mask, words, notes)?;
        push_view(alloc, settings, mask, true, notes)?;
    }
    Ok(())
}

/// Notes that the text is empty, as of an unset variable.
fn push_empty(alloc: Global, text: &str, notes: &mut String) -> Result<(), AllocError> {
    if text.is_empty() {
        let what =
            "empty, so it has no DACL and grants everything: --require-dacl makes it a fault";
        let note = told_line(alloc, "SDDL", what)?;
        notes.push_str(note.as_str())?;
    }
    Ok(())
}

/// Notes rights that let much be done to an object of the kind, and that no risk is about.
fn push_no_risk(alloc: Global, settings: &Settings, notes: &mut String) -> Result<(), AllocError> {
    let rights = match settings.kind {
        Some(ObjectKind::Directory) => "CC, DC and CR",
        Some(ObjectKind::Printer) => "PRINTER_ACCESS_ADMINISTER and JOB_ACCESS_ADMINISTER",
        Some(ObjectKind::Token) => "TOKEN_ASSIGN_PRIMARY, TOKEN_DUPLICATE and TOKEN_IMPERSONATE",
        _ => return Ok(()),
    };
    if settings.risks {
        let what = format!(in alloc; "no risk is about {rights}: 'who' says who has them")?;
        let note = told_line(alloc, "--risks", what.as_str())?;
        notes.push_str(note.as_str())?;
    }
    Ok(())
}

/// Notes that FA is a flag, of failed accesses, in an entry without rights.
fn push_flag(
    alloc: Global,
    settings: &Settings,
    text: &str,
    notes: &mut String,
) -> Result<(), AllocError> {
    let known = settings.aliases;
    let Ok(part) = read_sddl_part(alloc, known, settings.whole, text) else {
        return Ok(());
    };
    if entries_in(&part.descriptor.dacl).iter().any(is_flag_alone) {
        let what =
            "FA was read as a flag of an entry without rights: they are the third field, as (A;;FA;;;WD)";
        let note = told_line(alloc, "SDDL", what)?;
        notes.push_str(note.as_str())?;
    }
    Ok(())
}

fn is_flag_alone(entry: &Ace) -> bool {
    entry.mask == Mask(0) && entry.flags.contains(AceFlags::FA)
}

/// Notes what of a SACL Windows checks before the DACL ([MS-DTYP] 2.5.3.3) and the answer doesn't look at: also labels,
/// or all but these.
fn push_limits(
    alloc: Global,
    settings: &Settings,
    labels: bool,
    text: &str,
    notes: &mut String,
) -> Result<(), AllocError> {
    if !settings.whole {
        return Ok(());
    }
    let Ok(descriptor) = read_whole_sddl(alloc, settings.aliases, text) else {
        return Ok(());
    };
    let WholeAcl::List(list) = &descriptor.sacl else {
        return Ok(());
    };
    for entry in list.entries() {
        push_limit(alloc, labels, entry, notes)?;
    }
    Ok(())
}

fn push_limit(
    alloc: Global,
    labels: bool,
    entry: &WholeAce,
    notes: &mut String,
) -> Result<(), AllocError> {
    let Some((what, sid)) = limit_in(labels, entry) else {
        return Ok(());
    };
    let sid = print_full_sid(alloc, sid)?;
    let sid = sid.as_str();
    let what = format!(in alloc;
        "the {what} {sid} is ignored, by which Windows may deny what is granted here"
    )?;
    let note = told_line(alloc, "SDDL", what.as_str())?;
    notes.push_str(note.as_str())
}

/// The name and the SID of an entry that limits what users are granted of the object itself.
fn limit_in(labels: bool, entry: &WholeAce) -> Option<(&'static str, &Sid)> {
    let WholeAce::Typed(ace) = entry else {
        return None;
    };
    if ace.flags.contains(AceFlags::IO) {
        return None;
    }
    let what = match ace.kind {
        WholeKind::MandatoryLabel if labels => "label",
        WholeKind::ScopedPolicy => "central policy",
        WholeKind::TrustLabel => "trust label",
        WholeKind::AccessFilter => "access filter of",
        _ => return None,
    };
    Some((what, &ace.sid))
}

/// Notes that entries of the DACL of the argument of this name have CR, by which no right is granted or denied.
fn push_critical(
    alloc: Global,
    settings: &Settings,
    name: &str,
    text: &str,
    notes: &mut String,
) -> Result<(), AllocError> {
    if !settings.whole {
        return Ok(());
    }
    let Ok(descriptor) = read_whole_sddl(alloc, settings.aliases, text) else {
        return Ok(());
    };
    let WholeAcl::List(list) = &descriptor.dacl else {
        return Ok(());
    };
    if list.entries().iter().any(is_critical) {
        let note = told_line(alloc, name, "the flag CR of entries is left out")?;
        notes.push_str(note.as_str())?;
    }
    Ok(())
}

fn is_critical(entry: &WholeAce) -> bool {
    entry.flags().bits() & CRITICAL != 0
}

/// Notes entries of the DACL that are inherited by what is made in a container ([MS-DTYP] 2.4.4.1), where only the
/// object is looked at.
fn push_children(
    alloc: Global,
    settings: &Settings,
    text: &str,
    notes: &mut String,
) -> Result<(), AllocError> {
    if settings.below {
        return Ok(());
    }
    let known = settings.aliases;
    let Ok(descriptor) = read_whole_sddl(alloc, known, text) else {
        return Ok(());
    };
    let WholeAcl::List(list) = &descriptor.dacl else {
        return Ok(());
    };
    if list.entries().iter().any(is_inherited) {
        let note = told_line(alloc, "SDDL", CHILDREN)?;
        notes.push_str(note.as_str())?;
    }
    Ok(())
}

/// Whether an entry has OI or CI.
fn is_inherited(entry: &WholeAce) -> bool {
    entry.flags().pass_on()
}

/// Notes a mask whose letters are also an alias, before groups, or that has decimal digits.
fn push_mask(
    alloc: Global,
    mask: &str,
    words: &[&str],
    notes: &mut String,
) -> Result<(), AllocError> {
    let what = match mask {
        "WD" if !words.is_empty() =>
            "WD was read as the right WRITE_DAC: Everyone is WD after MASK",
        "RC" if !words.is_empty() =>
            "RC was read as the right READ_CONTROL: restricted code is RC after MASK",
        _ if is_decimal(mask) => "read as a decimal number: hexadecimal begins with 0x",
        _ => return Ok(()),
    };
    let note = told_line(alloc, "MASK", what)?;
    notes.push_str(note.as_str())
}

/// Notes that the mask has bits that are no rights of a registry key, and that a request leaves them out.
fn push_view(
    alloc: Global,
    settings: &Settings,
    mask: &str,
    is_request: bool,
    notes: &mut String,
) -> Result<(), AllocError> {
    let Ok(asked) = read_mask_in(settings.spelling, mask) else {
        return Ok(());
    };
    let rights = requested(settings.kind, asked);
    if rights == asked {
        return Ok(());
    }
    let ending = match (is_request, rights.is_empty()) {
        (false, _) => "leave them out",
        (true, false) => "they were left out of the request",
        (true, true) => "they were left out of the request, which is empty",
    };
    let what = format!(in alloc; "{VIEW}: {ending}")?;
    let note = told_line(alloc, "MASK", what.as_str())?;
    notes.push_str(note.as_str())
}

/// Whether a mask has five or more decimal digits: so many have masks in hexadecimal.
fn is_decimal(mask: &str) -> bool {
    5 <= mask.len() && !mask.starts_with('0') && mask.bytes().all(|byte| byte.is_ascii_digit())
}
