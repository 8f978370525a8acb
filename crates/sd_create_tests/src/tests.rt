//! What new objects get, beside the rows.

use crate::rows::{LATER, ROWS};
use bitflags::Flags;
use sd_create::{AutoInherit, CreateError, Creation, CreatorToken, Inheritance, create, inherit};
use sd_inheritance::NodeKind;
use sd_sid::{GenericMapping, Sid};
use sd_text::{Aliases, RightNames, read_sid_text};
use sd_whole::{Guid, WholeAce, WholeAcl, WholeDescriptor};
use sd_whole_parse::read_whole_sddl;
use sd_whole_text::print_whole;
use std::alloc::{AllocError, Global};
use std::process::Abort;
use std::test::Fail;

/// The control bits that have a keyword: PD, PS, DI, SI.
const KEYWORDS: u16 = 0x3c00;

/// The text with the meanings of its signs.
fn spelled(alloc: Global, text: &str) -> Result<String, AllocError> {
    let mut out = String::new(alloc);
    for c in text.chars() {
        match c {
            '%' => out.push_str("S-1-5-21-1-2-3-1001")?,
            '$' => out.push_str("S-1-5-21-1-2-3-513")?,
            '^' => out.push_str("O:S-1-5-21-1-2-3-1001G:S-1-5-21-1-2-3-513")?,
            '~' => out.push_str("bf967aba-0de6-11d0-a285-00aa003049e2")?,
            '#' => out.push_str("bf967a9c-0de6-11d0-a285-00aa003049e2")?,
            _ => out.push(c)?,
        }
    }
    Ok(out)
}

/// The first column of the text, and the others.
fn column<'a>(rt: &impl Abort, text: &'a str) -> (&'a str, &'a str) {
    text.split_once(" | ").expect(rt, "another column")
}

/// The descriptor of a text; of `-` none.
fn whole_of(
    rt: &impl Abort,
    alloc: Global,
    text: &str,
) -> Result<Option<WholeDescriptor>, AllocError> {
    if text == "-" {
        return Ok(None);
    }
    let text = spelled(alloc, text)?;
    let whole = read_whole_sddl(alloc, Aliases::in_domain(None), text.as_str());
    Ok(Some(whole.expect(rt, "a descriptor")))
}

fn sid_of(rt: &impl Abort, alloc: Global, text: &str) -> Result<Sid, AllocError> {
    let text = spelled(alloc, text)?;
    Ok(read_sid_text(text.as_str()).expect(rt, "a SID"))
}

/// The flag of a word, if it is one.
fn flag_of(word: &str) -> Option<AutoInherit> {
    match word {
        "auto" => Some(AutoInherit::DACL_AUTO_INHERIT),
        "audit" => Some(AutoInherit::SACL_AUTO_INHERIT),
        "default" => Some(AutoInherit::DEFAULT_DESCRIPTOR_FOR_OBJECT),
        "avoid" => Some(AutoInherit::AVOID_OWNER_CHECK),
        "owner" => Some(AutoInherit::DEFAULT_OWNER_FROM_PARENT),
        "group" => Some(AutoInherit::DEFAULT_GROUP_FROM_PARENT),
        _ => None,
    }
}

/// The class of a sign: it is read as that of an entry.
fn class_of(rt: &impl Abort, alloc: Global, sign: &str) -> Result<Guid, AllocError> {
    let text = format!(in alloc; "D:(OA;;GA;{sign};;WD)")?;
    let whole = whole_of(rt, alloc, text.as_str())?.expect(rt, "a descriptor");
    let WholeAcl::List(list) = &whole.dacl else {
        rt.abort()
    };
    match list.entries() {
        [WholeAce::Typed(ace)] => Ok(ace.types.object.expect(rt, "a class")),
        _ => rt.abort(),
    }
}

/// The words of a row.
#[derive(Drop)]
struct Words {
    kind: NodeKind,
    types: Vec<Guid>,
    flags: AutoInherit,
    restore: bool,
}

fn words_of(rt: &impl Abort, alloc: Global, text: &str) -> Result<Words, AllocError> {
    let mut words = Words {
        kind: NodeKind::Object,
        types: Vec::new(alloc),
        flags: AutoInherit::empty(),
        restore: false,
    };
    for word in text.split_whitespace() {
        if let Some(flag) = flag_of(word) {
            words.flags = words.flags.union(flag);
        } else if word == "container" {
            words.kind = NodeKind::Container;
        } else if word == "restore" {
            words.restore = true;
        } else if word != "object" {
            words.types.push(class_of(rt, alloc, word)?)?;
        }
    }
    Ok(words)
}

/// What the row's object gets, as the last two columns say it.
fn made(rt: &impl Abort, alloc: Global, row: &str) -> Result<String, AllocError> {
    let (parent, rest) = column(rt, row);
    let (creator, rest) = column(rt, rest);
    let (words, _) = column(rt, rest);
    let words = words_of(rt, alloc, words)?;
    let parent = whole_of(rt, alloc, parent)?;
    let creator = whole_of(rt, alloc, creator)?;
    let otherwise = whole_of(rt, alloc, "D:(A;;GA;;;%)(A;;GR;;;$)")?.expect(rt, "a descriptor");
    let owners = [sid_of(rt, alloc, "S-1-5-32-544")?, sid_of(rt, alloc, "%")?];
    let token = CreatorToken {
        owner: sid_of(rt, alloc, "%")?,
        group: sid_of(rt, alloc, "$")?,
        dacl: &otherwise.dacl,
        owners: &owners,
        restore: words.restore,
    };
    let creation = Creation {
        parent: parent.as_ref(),
        creator: creator.as_ref(),
        kind: words.kind,
        types: &words.types,
        flags: words.flags,
        token: &token,
        mapping: &GenericMapping::file(),
    };
    match create(alloc, &creation) {
        Ok(descriptor) => printed(rt, alloc, descriptor),
        Err(CreateError::Fault(fault)) => {
            let name = fault.name();
            format!(in alloc; "refused | {name}")
        }
        Err(CreateError::Memory) => Err(AllocError),
    }
}

/// The descriptor's text, and the control bits without a keyword.
fn printed(
    rt: &impl Abort,
    alloc: Global,
    mut descriptor: WholeDescriptor,
) -> Result<String, AllocError> {
    let bits = descriptor.control & !KEYWORDS;
    descriptor.control &= KEYWORDS;
    let text = print_whole(alloc, RightNames::All, &descriptor).expect(rt, "a text");
    format!(in alloc; "{text} | {bits:#x}")
}

#[test]
fn objects_get_what_the_rows_say(rt: HostRuntime) -> Result<(), Fail> {
    let alloc = rt.alloc();
    let mut count: u32 = 0;
    for row in ROWS.split('\n') {
        if !row.contains(" | ") {
            continue;
        }
        let (_, rest) = column(&rt, row);
        let (_, rest) = column(&rt, rest);
        let (_, wanted) = column(&rt, rest);
        let wanted = spelled(alloc, wanted)?;
        let found = made(&rt, alloc, row)?;
        assert!(rt; found.as_str() == wanted.as_str(), "{row}: {found}");
        count = count.saturating_add(1);
    }
    assert!(rt; count == 49, "{count}");
    Ok(())
}

/// What the row's object has after it inherited again, as the last column says it.
fn made_later(rt: &impl Abort, alloc: Global, row: &str) -> Result<String, AllocError> {
    let (parent, rest) = column(rt, row);
    let (child, rest) = column(rt, rest);
    let (words, _) = column(rt, rest);
    let words = words_of(rt, alloc, words)?;
    let parent = whole_of(rt, alloc, parent)?.expect(rt, "a descriptor");
    let child = whole_of(rt, alloc, child)?.expect(rt, "a descriptor");
    let inheritance = Inheritance {
        parent: &parent,
        child: &child,
        kind: words.kind,
        types: &words.types,
        mapping: &GenericMapping::file(),
    };
    match inherit(alloc, &inheritance) {
        Ok(after) => Ok(print_whole(alloc, RightNames::All, &after).expect(rt, "a text")),
        Err(CreateError::Fault(fault)) => String::from_str(alloc, fault.name()),
        Err(CreateError::Memory) => Err(AllocError),
    }
}

#[test]
fn objects_inherit_again_what_the_rows_say(rt: HostRuntime) -> Result<(), Fail> {
    let alloc = rt.alloc();
    let mut count: u32 = 0;
    for row in LATER.split('\n') {
        if !row.contains(" | ") {
            continue;
        }
        let (_, rest) = column(&rt, row);
        let (_, rest) = column(&rt, rest);
        let (_, wanted) = column(&rt, rest);
        let wanted = spelled(alloc, wanted)?;
        let found = made_later(&rt, alloc, row)?;
        assert!(rt; found.as_str() == wanted.as_str(), "{row}: {found}");
        count = count.saturating_add(1);
    }
    assert!(rt; count == 23, "{count}");
    Ok(())
}
