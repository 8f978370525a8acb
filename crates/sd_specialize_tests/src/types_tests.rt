//! Questions about trees of object types: the verdict on each node.

use crate::access_tests::client_of;
use crate::rows::{NO_TREES, TYPES};
use crate::tests::{Asked, asked_by, column};
use sd_check::Verdict;
use sd_sid::GenericMapping;
use sd_text::read_mask;
use sd_types::{TreeError, TreeQuestion, TypeNode, TypeTree, check_types};
use sd_whole::{GUID_BYTES, Guid};
use std::alloc::{AllocError, Global};
use std::process::Abort;
use std::test::Fail;

/// The nodes with these types, and with the levels that the text has.
fn nodes_of(
    rt: &impl Abort,
    alloc: Global,
    levels: &str,
    types: &[Guid],
) -> Result<Vec<TypeNode>, AllocError> {
    let mut nodes = Vec::new(alloc);
    for (level, guid) in levels.split_whitespace().zip(types) {
        let level = level.parse::<usize>().expect(rt, "a level");
        nodes.push(TypeNode { level, guid: *guid })?;
    }
    Ok(nodes)
}

/// A verdict as rows have it.
fn short_text(alloc: Global, verdict: Verdict) -> Result<String, AllocError> {
    match verdict {
        Verdict::Granted(mask) => format!(in alloc; "+{:x}", mask.bits()),
        Verdict::Denied { missing } => format!(in alloc; "-{:x}", missing.bits()),
        Verdict::Reserved(mask) => format!(in alloc; "!{:x}", mask.bits()),
        Verdict::EmptyRequest => format!(in alloc; "0"),
    }
}

#[test]
fn answers_for_each_node(rt: HostRuntime) -> Result<(), Fail> {
    let alloc = rt.alloc();
    let mapping = GenericMapping::file();
    let mut count: u32 = 0;
    for row in TYPES.split('\n') {
        if !row.contains(" | ") {
            continue;
        }
        let (levels, asked) = column(&rt, row);
        let Asked {
            whole,
            chain,
            principal_self,
            token,
            rest,
        } = asked_by(&rt, alloc, asked)?;
        let (level, rest) = column(&rt, rest);
        let (mask, wanted) = column(&rt, rest);
        let level = level.parse::<u32>().expect(&rt, "a level");
        let client = client_of(&rt, alloc, token, level)?;
        let nodes = nodes_of(&rt, alloc, levels, &chain)?;
        let tree = TypeTree::new(alloc, &nodes).expect(&rt, "a tree");
        let question = TreeQuestion {
            client: &client,
            types: &tree,
            principal_self,
            mapping: &mapping,
            asked: read_mask(mask).expect(&rt, "a mask"),
        };
        let mut told = String::new(alloc);
        for verdict in check_types(alloc, &question, &whole).expect(&rt, "verdicts") {
            if !told.is_empty() {
                told.push(' ')?;
            }
            told.push_str(short_text(alloc, verdict)?.as_str())?;
        }
        assert!(rt; told.as_str() == wanted, "{row}: {told}");
        count = count.saturating_add(1);
    }
    assert!(rt; count == 21, "{count}");
    Ok(())
}

/// The nodes of a text, each with its level and, behind a `:`, the byte of which its type is made.
fn numbered(rt: &impl Abort, alloc: Global, text: &str) -> Result<Vec<TypeNode>, AllocError> {
    let mut nodes = Vec::new(alloc);
    for word in text.split_whitespace() {
        let (level, byte) = word.split_once(':').expect(rt, "a level and a byte");
        let level = level.parse::<usize>().expect(rt, "a level");
        let bytes = [byte.parse::<u8>().expect(rt, "a byte"); GUID_BYTES];
        nodes.push(TypeNode {
            level,
            guid: Guid { bytes },
        })?;
    }
    Ok(nodes)
}

#[test]
fn refuses_lists_that_are_no_trees(rt: HostRuntime) -> Result<(), Fail> {
    let alloc = rt.alloc();
    for row in NO_TREES.split('\n') {
        let (text, wanted) = column(&rt, row);
        let nodes = numbered(&rt, alloc, text)?;
        let told = match TypeTree::new(alloc, &nodes) {
            Err(TreeError::Fault(fault)) => {
                let (number, name) = (fault.kind.number(), fault.kind.name());
                format!(in alloc; "{} {number} {name}", fault.place)?
            }
            Err(TreeError::Memory) => return Err(AllocError.into()),
            Ok(_) => String::from_str(alloc, "a tree")?,
        };
        assert!(rt; told.as_str() == wanted, "{row}: {told}");
    }
    Ok(())
}
