//! A test calls a store by helpers without contracts: the proof of the test then carries no journal along.

mod audits;
mod calls;
mod client;
mod may_read;
mod memory;
mod store;
mod threads;

use sd_acl::Dacl;
use sd_check::{GroupState, Privileges, Token, Verdict};
use sd_sid::Mask;
use sd_store::Query;
use sd_text::{read_sddl, read_sid_text};
use sd_tree::{CheckReply, Edit, Entries, NodeDacl, Path, RootSpec};
use std::alloc::Global;

/// The reply where the user's request is granted, and where it is denied.
const GRANTED: CheckReply = CheckReply::Verdict(Verdict::Granted(Mask(0x1)));

const DENIED: CheckReply = CheckReply::Verdict(Verdict::Denied { missing: Mask(0x1) });

/// What an edit does.
#[derive(Clone, Copy, Debug)]
enum Change {
    Container,
    Object,
    Dacl,
}

/// An edit at the path, by a text with an owner, a group and a DACL. None when out of memory.
fn edit(alloc: Global, change: Change, path: &str, sddl: &str) -> Option<Edit> {
    let path = Path::read(alloc, path).ok()?;
    let RootSpec { owner, group, dacl } = spec(alloc, sddl)?;
    Some(match change {
        Change::Container => Edit::AddContainer {
            path,
            owner,
            group,
            dacl,
        },
        Change::Object => Edit::AddObject {
            path,
            owner,
            group,
            dacl,
        },
        Change::Dacl => Edit::SetDacl { path, dacl },
    })
}

fn spec(alloc: Global, sddl: &str) -> Option<RootSpec> {
    let descriptor = read_sddl(alloc, sddl).ok()?;
    let entries = match &descriptor.dacl {
        Dacl::List(list) => Vec::from_slice(alloc, list.entries()).ok()?,
        _ => return None,
    };
    Some(RootSpec {
        owner: descriptor.owner?,
        group: descriptor.group?,
        dacl: NodeDacl::List {
            protected: descriptor.protected,
            entries: Entries::new(entries),
        },
    })
}

/// The user S-1-5-21-1-2-3-1001, one of BUILTIN\Users, asks for 0x1 at the path.
fn query(alloc: Global, path: &str) -> Option<Query> {
    let users = read_sid_text("BU").ok()?;
    let groups = vec![in alloc; (users, GroupState::Enabled)].ok()?;
    let user = read_sid_text("S-1-5-21-1-2-3-1001").ok()?;
    Some(Query {
        path: Path::read(alloc, path).ok()?,
        token: Token::new(user, groups, Privileges::default()),
        asked: Mask(0x1),
    })
}
