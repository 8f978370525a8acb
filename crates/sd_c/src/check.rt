//! The check.

ghost use Rattle.std.specs.Prelude.{◌≡◌, ◌<◌, ◌⊎◌, length, IsErrOf};
ghost use Rattle.sd_wire.specs.Memory.{TakesMemory};
ghost use Rattle.sd_c.specs.CallAnswer.{check_answer, check_memory};
ghost use Rattle.sd_c.specs.Request.{Gives, request_read, verdict_read};

use crate::call_answer::{CheckAnswer, verdict_given, why_not};
use crate::mapping::Mapping;
use crate::request::{descriptor_of, mapping_of, token_of};
use crate::stop::Stop;
use sd_check::{Verdict, check};
use sd_sid::Mask;
use std::alloc::Global;

/// The verdict on a request ([MS-DTYP] 2.5.3.2): for the descriptor in the bytes, the user whose SID is at the front
/// of its bytes, the concatenated SIDs of groups with a state for each (0, 0x4 or 0x10), concatenated restricting
/// SIDs, privileges (bit 0 SeSecurityPrivilege, bit 1 SeTakeOwnershipPrivilege) and a mapping of four masks. The first
/// invalid argument from the left is reported.
#[unsafe(no_mangle)]
pub extern "C" fn hudarin_check(
    alloc: Global,
    descriptor: &[u8],
    user: &[u8],
    groups: &[u8],
    states: &[u32],
    restricting: &[u8],
    privileges: u32,
    mapping: Mapping,
    asked: u32,
) -> CheckAnswer
    ensures answer { (result ≡ check_answer
        (request_read descriptor.now user.now groups.now states.now restricting.now privileges mapping) asked)
        ⊎ (result ≡ check_memory) }
    ensures memory { result.status ≡ 1
        → TakesMemory descriptor.now ⊎ (0 < length states.now) ⊎ (0 < length restricting.now) }
{
    match verdict_on(
        alloc,
        descriptor,
        user,
        groups,
        states,
        restricting,
        privileges,
        mapping,
        asked,
    ) {
        Ok(verdict) => verdict_given(verdict),
        Err(stop) => why_not(stop),
    }
}

#[tactic(auto, unfolding(crate::specs::Request::request_read))]
fn verdict_on(
    alloc: Global,
    descriptor: &[u8],
    user: &[u8],
    groups: &[u8],
    states: &[u32],
    restricting: &[u8],
    privileges: u32,
    mapping: Mapping,
    asked: u32,
) -> Result<Verdict, Stop>
    ensures read { Gives (λ verdict. verdict) result (verdict_read
        (request_read descriptor.now user.now groups.now states.now restricting.now privileges mapping) asked) }
    ensures memory { IsErrOf result Stop.Memory
        → TakesMemory descriptor.now ⊎ (0 < length states.now) ⊎ (0 < length restricting.now) }
{
    let descriptor = descriptor_of(alloc, descriptor)?;
    let token = token_of(alloc, user, groups, states, restricting, privileges)?;
    let mapping = mapping_of(mapping)?;
    Ok(check(&descriptor, &mapping, &token, Mask(asked)))
}
