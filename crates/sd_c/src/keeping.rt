//! The calls that keep what they parse in a handle.

ghost use Rattle.std.specs.Prelude.{◌≡◌, ◌⊎◌, Ok, IfErr, IfOk, IsErrOf};
ghost use Rattle.sd_acl.specs.Descriptor.{DescriptorValue, descriptor_of};
ghost use Rattle.sd_check.specs.Token.{TokenValue};
ghost use Rattle.sd_text.specs.Grammar.{Spells};
ghost use Rattle.sd_text.specs.Sddl.{sddl};
ghost use Rattle.sd_c.specs.Kept.{IsHeldAs, KeepsDescriptor, KeepsToken, TokenInUse, TokenLacksMemory};
ghost use Rattle.sd_c.specs.Kept.{TokenTakesMemory, descriptor_in, token_in};
ghost use Rattle.sd_c.specs.Request.{Fails, token_read};
ghost use Rattle.sd_c.specs.Written.{RefusesBytes, RefusesText};

use crate::call_answer::{CheckAnswer, HANDLE, OK, Written, not_written, refused, unread, why_not};
use crate::handle::{Handle, Kept};
use crate::refusal::Refusal;
use crate::request::token_of;
use crate::stop::Stop;
use crate::text::descriptor_of;
use sd_acl::Descriptor;
use sd_wire::{WireError, read_descriptor};
use std::alloc::{AllocError, Global};
use std::sync::Arc;

/// Keeps the descriptor that the SDDL text spells ([MS-DTYP] 2.5.1). Refused as `hudarin_sddl_to_bytes` is, or if the
/// handle is in use; then it is unchanged.
#[unsafe(no_mangle)]
pub extern "C" fn hudarin_keep_sddl(alloc: Global, text: &[u8], handle: &mut Handle) -> Written
    ensures { KeepsDescriptor (Spells sddl text.now) (RefusesText sddl text.now) handle.old handle.new result }
{
    if handle.is_there == 1 {
        return not_written(HANDLE, 0, 0);
    }
    match kept_text(alloc, text) {
        Ok(kept) => {
            handle.put(kept);
            not_written(OK, 0, 0)
        }
        Err(why) => refused(why),
    }
}

/// Keeps the descriptor at the front of the bytes ([MS-DTYP] 2.4.6). Refused as `hudarin_bytes_to_sddl` is, or if the
/// handle is in use; then it is unchanged.
#[unsafe(no_mangle)]
pub extern "C" fn hudarin_keep_bytes(alloc: Global, bytes: &[u8], handle: &mut Handle) -> Written
    ensures { KeepsDescriptor (IsHeldAs bytes.now) (RefusesBytes bytes.now) handle.old handle.new result }
{
    if handle.is_there == 1 {
        return not_written(HANDLE, 0, 0);
    }
    match kept_bytes(alloc, bytes) {
        Ok(kept) => {
            handle.put(kept);
            not_written(OK, 0, 0)
        }
        Err(why) => refused(why),
    }
}

/// Keeps the token of a user, groups with their states, restricting SIDs, and privileges ([MS-DTYP] 2.5.2), as
/// `hudarin_check` parses them. Refused if one of them is invalid, out of memory, or if the handle is in use; then it
/// is unchanged.
#[unsafe(no_mangle)]
pub extern "C" fn hudarin_keep_token(
    alloc: Global,
    user: &[u8],
    groups: &[u8],
    states: &[u32],
    restricting: &[u8],
    privileges: u32,
    handle: &mut Handle,
) -> CheckAnswer
    ensures { KeepsToken (token_read user.now groups.now states.now restricting.now privileges)
        handle.old handle.new result
        ⊎ TokenLacksMemory states.now restricting.now
        (token_read user.now groups.now states.now restricting.now privileges) handle.old handle.new result
        ⊎ TokenInUse handle.old handle.new result }
{
    if handle.is_there == 1 {
        return unread(HANDLE, 8, 0, 0);
    }
    match kept_token(alloc, user, groups, states, restricting, privileges) {
        Ok(kept) => {
            handle.put(kept);
            unread(OK, 0, 0, 0)
        }
        Err(stop) => why_not(stop),
    }
}

fn kept_text(alloc: Global, text: &[u8]) -> Result<Box<Kept>, Refusal>
    ensures ok { IfOk result
        (λ kept. (d : DescriptorValue) × Spells sddl text.now d × (descriptor_in kept.value ≡ Ok d)) }
    ensures err { IfErr result (λ why. RefusesText sddl text.now why) }
{
    let descriptor = descriptor_of(alloc, None, text)?;
    Ok(boxed_descriptor(alloc, descriptor)?)
}

/// The descriptor, for one handle.
fn boxed_descriptor(alloc: Global, descriptor: Descriptor) -> Result<Box<Kept>, AllocError>
    ensures { IfOk result (λ kept. descriptor_in kept.value ≡ Ok (descriptor_of descriptor)) }
{
    let descriptor = Arc::new(alloc, descriptor)?;
    Ok(Box::new(alloc, Kept::Descriptor(descriptor))?)
}

fn kept_bytes(alloc: Global, bytes: &[u8]) -> Result<Box<Kept>, Refusal>
    ensures ok { IfOk result
        (λ kept. (d : DescriptorValue) × IsHeldAs bytes.now d × (descriptor_in kept.value ≡ Ok d)) }
    ensures err { IfErr result (λ why. RefusesBytes bytes.now why) }
{
    match read_descriptor(alloc, bytes) {
        Ok(descriptor) => Ok(boxed_descriptor(alloc, descriptor)?),
        Err(WireError::Fault(fault)) => Err(Refusal::Wire(fault)),
        Err(WireError::Memory) => Err(Refusal::Memory),
    }
}

fn kept_token(
    alloc: Global,
    user: &[u8],
    groups: &[u8],
    states: &[u32],
    restricting: &[u8],
    privileges: u32,
) -> Result<Box<Kept>, Stop>
    ensures ok { IfOk result (λ kept. (t : TokenValue)
        × (token_read user.now groups.now states.now restricting.now privileges ≡ Ok t)
        × (token_in kept.value ≡ Ok t)) }
    ensures err { IfErr result
        (λ stop. Fails stop (token_read user.now groups.now states.now restricting.now privileges)) }
    ensures memory { IsErrOf result Stop.Memory
        → TokenTakesMemory states.now restricting.now
        (token_read user.now groups.now states.now restricting.now privileges) }
{
    let token = token_of(alloc, user, groups, states, restricting, privileges)?;
    let token = Arc::new(alloc, token)?;
    Ok(Box::new(alloc, Kept::Token(token))?)
}
