//! The edit that the arguments of a call say.

ghost use Rattle.std.specs.Prelude.{◌≡◌, IfErr, IfOk, Ok};
ghost use Rattle.sd_acl.specs.Descriptor.{descriptor_of};
ghost use Rattle.sd_path.specs.PathText.{path_of};
ghost use Rattle.sd_wire.specs.Reading.{descriptor_read};
ghost use Rattle.sd_c.specs.Edits.{IsDacl, IsEdit, IsNoDacl, IsNoDescriptor, IsNoEdit, IsNoNode, IsNoPath, IsNoSid};
ghost use Rattle.sd_c.specs.Edits.{IsNode, IsSid};

use crate::not_done::{EditArgument, NotDone};
use crate::text::utf8_of;
use sd_acl::Descriptor;
use sd_path::{Path, PathError};
use sd_sid::{Sid, read_sid};
use sd_tree::{Edit, NodeDacl, NodeKind, RootSpec};
use sd_wire::{WireError, read_descriptor};
use std::alloc::Global;

/// The numbers of the edits.
pub(crate) const ADD_CONTAINER: u32 = 1;

pub(crate) const ADD_OBJECT: u32 = 2;

const SET_OWNER: u32 = 3;

const SET_GROUP: u32 = 4;

const SET_DACL: u32 = 5;

const REMOVE: u32 = 6;

const PROTECT_KEEPING: u32 = 7;

const MOVE: u32 = 8;

/// The edit of this number at the path, with what its value says: a descriptor, a SID, a target, or nothing.
pub(crate) fn edit_of(alloc: Global, kind: u32, path: &[u8], value: &[u8]) -> Result<Edit, NotDone>
    ensures ok { IfOk result (λ edit. IsEdit kind path.now value.now edit) }
    ensures err { IfErr result (λ why. IsNoEdit kind path.now value.now why) }
{
    let path = path_of(alloc, EditArgument::Path, path)?;
    match kind {
        ADD_CONTAINER => {
            let node = node_of(alloc, value)?;
            Ok(Edit::addition(NodeKind::Container, path, node))
        }
        ADD_OBJECT => {
            let node = node_of(alloc, value)?;
            Ok(Edit::addition(NodeKind::Object, path, node))
        }
        SET_OWNER => Ok(Edit::SetOwner {
            path,
            owner: sid_of(value)?,
        }),
        SET_GROUP => Ok(Edit::SetGroup {
            path,
            group: sid_of(value)?,
        }),
        SET_DACL => Ok(Edit::SetDacl {
            path,
            dacl: dacl_of(alloc, value)?,
        }),
        REMOVE if value.is_empty() => Ok(Edit::Remove { path }),
        PROTECT_KEEPING if value.is_empty() => Ok(Edit::ProtectKeeping { path }),
        MOVE => Ok(Edit::Move {
            source: path,
            target: path_of(alloc, EditArgument::Value, value)?,
        }),
        _ => Err(NotDone::EditKind),
    }
}

/// The path that an argument says.
pub(crate) fn path_of(alloc: Global, argument: EditArgument, bytes: &[u8]) -> Result<Path, NotDone>
    ensures ok { IfOk result (λ path. path_of bytes.now ≡ Ok path) }
    ensures err { IfErr result (λ why. IsNoPath argument bytes.now why) }
{
    let text = match utf8_of(bytes) {
        Ok(text) => text,
        Err(place) => return Err(NotDone::Utf8 { argument, place }),
    };
    match Path::read(alloc, text) {
        Ok(path) => Ok(path),
        Err(PathError::Memory) => Err(NotDone::Memory),
        Err(fault) => Err(NotDone::Path { argument, fault }),
    }
}

fn sid_of(bytes: &[u8]) -> Result<Sid, NotDone>
    ensures ok { IfOk result (λ sid. IsSid bytes.now sid) }
    ensures err { IfErr result (λ why. IsNoSid bytes.now why) }
{
    match read_sid(bytes) {
        Ok((sid, _)) => Ok(sid),
        Err(fault) => Err(NotDone::Sid(fault)),
    }
}

/// The owner, the group and the DACL of a node, as the descriptor in the bytes gives them.
pub(crate) fn node_of(alloc: Global, bytes: &[u8]) -> Result<RootSpec, NotDone>
    ensures ok { IfOk result (λ node. IsNode bytes.now node.owner node.group node.dacl) }
    ensures err { IfErr result (λ why. IsNoNode bytes.now why) }
{
    let descriptor = descriptor_of(alloc, EditArgument::Value, bytes)?;
    match (descriptor.owner, descriptor.group) {
        (Some(owner), Some(group)) => {
            let dacl = NodeDacl::of_descriptor(alloc, &descriptor)?;
            Ok(RootSpec { owner, group, dacl })
        }
        _ => Err(NotDone::Parts(EditArgument::Value)),
    }
}

/// The DACL of a node, as the descriptor in the bytes gives it, which has nothing else.
fn dacl_of(alloc: Global, bytes: &[u8]) -> Result<NodeDacl, NotDone>
    ensures ok { IfOk result (λ dacl. IsDacl bytes.now dacl) }
    ensures err { IfErr result (λ why. IsNoDacl bytes.now why) }
{
    let descriptor = descriptor_of(alloc, EditArgument::Value, bytes)?;
    match (descriptor.owner, descriptor.group) {
        (None, None) => Ok(NodeDacl::of_descriptor(alloc, &descriptor)?),
        _ => Err(NotDone::Parts(EditArgument::Value)),
    }
}

/// The descriptor that an argument holds.
pub(crate) fn descriptor_of(
    alloc: Global,
    argument: EditArgument,
    bytes: &[u8],
) -> Result<Descriptor, NotDone>
    ensures ok { IfOk result (λ d. descriptor_read bytes.now ≡ Ok (descriptor_of d)) }
    ensures err { IfErr result (λ why. IsNoDescriptor argument bytes.now why) }
{
    match read_descriptor(alloc, bytes) {
        Ok(descriptor) => Ok(descriptor),
        Err(WireError::Fault(fault)) => Err(NotDone::Descriptor { argument, fault }),
        Err(WireError::Memory) => Err(NotDone::Memory),
    }
}
