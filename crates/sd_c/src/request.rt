//! The arguments of a check.

ghost use Rattle.std.specs.Prelude.{◌≡◌, ◌<◌, ◌≤◌, ◌⊎◌, length, IfOk, IsErrOf};
ghost use Rattle.sd_acl.specs.Descriptor.{descriptor_of};
ghost use Rattle.sd_wire.specs.Memory.{TakesMemory};
ghost use Rattle.sd_c.specs.Request.{Gives, state_read, group_read, groups_read, restricting_sid, restricting_read};
ghost use Rattle.sd_c.specs.Request.{privileges_read, mapping_read, token_read, of_wire, of_user};
ghost use Rattle.sd_wire.specs.Reading.{descriptor_read};
ghost use Rattle.sd_sid.specs.SidBytes.{sid_reading};

use crate::mapping::Mapping;
use crate::stop::{NotRead, Stop};
use sd_acl::Descriptor;
use sd_check::{GroupState, Privileges, Token};
use sd_sid::{GenericMapping, Mask, SID_HEADER_BYTES, Sid, SidRef, read_sid};
use sd_wire::{WireError, read_descriptor};
use std::alloc::Global;

/// SE_GROUP_ENABLED alone.
const ENABLED: u32 = 0x4;

/// SE_GROUP_USE_FOR_DENY_ONLY alone.
const DENY_ONLY: u32 = 0x10;

/// The bit beside the privileges that says that the user counts for denies alone.
const DENY_ONLY_USER: u32 = 0x4;

/// The least bytes of a SID.
const MIN_SID_BYTES: usize = SID_HEADER_BYTES + 4;

/// The descriptor of its bytes.
pub(crate) fn descriptor_of(alloc: Global, bytes: &[u8]) -> Result<Descriptor, Stop>
    ensures read { Gives descriptor_of result (of_wire (descriptor_read bytes.now)) }
    ensures memory { IsErrOf result Stop.Memory → TakesMemory bytes.now }
{
    match read_descriptor(alloc, bytes) {
        Ok(descriptor) => Ok(descriptor),
        Err(WireError::Fault(fault)) => Err(Stop::NotRead(NotRead::Descriptor(fault))),
        Err(WireError::Memory) => Err(Stop::Memory),
    }
}

/// The token of a user, groups with their states, restricting SIDs, and privileges with how the user counts.
#[tactic(auto, unfolding(crate::specs::Request::token_read))]
pub(crate) fn token_of(
    alloc: Global,
    user: &[u8],
    groups: &[u8],
    states: &[u32],
    restricting: &[u8],
    privileges: u32,
) -> Result<Token, Stop>
    ensures read { Gives (λ token. token) result
        (token_read user.now groups.now states.now restricting.now privileges) }
    ensures memory { IsErrOf result Stop.Memory → (0 < length states.now) ⊎ (0 < length restricting.now) }
{
    let user = user_of(user)?;
    let groups = groups_of(alloc, groups, states)?;
    let restricting = restricting_of(alloc, restricting)?;
    let held = privileges_of(privileges)?;
    let token = Token::restricted(user, groups, restricting, held);
    if privileges & DENY_ONLY_USER != 0 {
        return Ok(token.of_deny_only_user());
    }
    Ok(token)
}

/// The SID at the front of the user's bytes.
pub(crate) fn user_of(bytes: &[u8]) -> Result<Sid, NotRead>
    ensures { result ≡ of_user (sid_reading bytes.now) }
{
    match read_sid(bytes) {
        Ok((sid, _)) => Ok(sid),
        Err(fault) => Err(NotRead::User(fault)),
    }
}

/// The state with a number.
fn state_of(number: u32) -> Option<GroupState>
    ensures { result ≡ state_read number }
{
    match number {
        0 => Some(GroupState::Disabled),
        ENABLED => Some(GroupState::Enabled),
        DENY_ONLY => Some(GroupState::DenyOnly),
        _ => None,
    }
}

/// The group at the front of the bytes, and how many of them its SID takes.
#[inline(always)]
#[tactic(auto, unfolding(crate::specs::Request::group_read))]
fn group_of(
    bytes: &[u8],
    number: u32,
    at: usize,
) -> Result<((SidRef<'_>, GroupState), usize), NotRead>
    ensures read { result ≡ group_read bytes.now number at }
    ensures size { IfOk result (λ x. x.1 ≤ length bytes.now) }
{
    match SidRef::read(bytes) {
        Ok((sid, size)) => match state_of(number) {
            Some(state) => Ok(((sid, state), size as usize)),
            None => Err(NotRead::State { at: at as u64 }),
        },
        Err(fault) => Err(NotRead::Group {
            fault,
            at: at as u64,
        }),
    }
}

/// The groups: as many as there are states. Memory is taken first, for no more than fit the bytes.
#[tactic(auto, unfolding(crate::specs::Request::groups_read))]
pub(crate) fn groups_of(
    alloc: Global,
    bytes: &[u8],
    states: &[u32],
) -> Result<Vec<(Sid, GroupState)>, Stop>
    ensures read { Gives (λ groups. groups.items) result (groups_read bytes.now states.now 0 (length states.now)) }
    ensures memory { IsErrOf result Stop.Memory → 0 < length states.now }
{
    let room = states.len().min(bytes.len() / MIN_SID_BYTES);
    let mut groups = Vec::with_capacity(alloc, room)?;
    let mut rest = bytes;
    for at in 0..states.len() {
        let (group, size) = group_of(rest, states[at], at)?;
        let (sid, state) = group;
        groups.reserve(1)?;
        groups.push_reserved((sid.copied(), state));
        rest = &rest[size..];
    }
    if !rest.is_empty() {
        return Err(Stop::NotRead(NotRead::BehindGroups {
            at: states.len() as u64,
        }));
    }
    Ok(groups)
}

/// The restricting SID at the front of the bytes, and how many of them it takes.
fn restricting_sid(bytes: &[u8], at: usize) -> Result<(Sid, usize), NotRead>
    ensures read { result ≡ restricting_sid at (sid_reading bytes.now) }
    ensures size { IfOk result (λ x. x.1 ≤ length bytes.now) }
{
    match read_sid(bytes) {
        Ok((sid, size)) => Ok((sid, size as usize)),
        Err(fault) => Err(NotRead::Restricting {
            fault,
            at: at as u64,
        }),
    }
}

/// The restricting SIDs, to the end of the bytes. Memory is taken first, for no more than fit the bytes.
#[tactic(auto, unfolding(crate::specs::Request::sids_read))]
pub(crate) fn restricting_of(alloc: Global, bytes: &[u8]) -> Result<Vec<Sid>, Stop>
    ensures read { Gives (λ sids. sids.items) result (restricting_read bytes.now) }
    ensures memory { IsErrOf result Stop.Memory → 0 < length bytes.now }
{
    let mut sids = Vec::with_capacity(alloc, bytes.len() / MIN_SID_BYTES)?;
    let mut rest = bytes;
    for at in 0..bytes.len() {
        if rest.is_empty() {
            return Ok(sids);
        }
        let (sid, size) = restricting_sid(rest, at)?;
        sids.push(sid)?;
        rest = &rest[size..];
    }
    Ok(sids)
}

/// The privileges of these bits, of which one says how the user counts.
fn privileges_of(bits: u32) -> Result<Privileges, NotRead>
    ensures { result ≡ privileges_read bits }
{
    if bits > 7 {
        return Err(NotRead::PrivilegeBits);
    }
    Ok(Privileges {
        security: bits & 1 != 0,
        take_ownership: bits & 2 != 0,
    })
}

/// The mapping of four masks.
pub(crate) fn mapping_of(mapping: Mapping) -> Result<GenericMapping, NotRead>
    ensures { result ≡ mapping_read mapping }
{
    let Mapping {
        read,
        write,
        execute,
        all,
    } = mapping;
    match GenericMapping::new(Mask(read), Mask(write), Mask(execute), Mask(all)) {
        Ok(mapping) => Ok(mapping),
        Err(_) => Err(NotRead::MappingBits),
    }
}
