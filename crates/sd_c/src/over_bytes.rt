//! The check by a kept token, directly over a descriptor's bytes.

ghost use Rattle.std.specs.Prelude.{◌≡◌};
ghost use Rattle.sd_c.specs.CallAnswer.{check_answer};
ghost use Rattle.sd_c.specs.Kept.{Stays};
ghost use Rattle.sd_c.specs.OverBytes.{asked_over, request_over};
ghost use Rattle.sd_c.specs.Request.{verdict_read};

use crate::call_answer::{CheckAnswer, not_read, verdict_given};
use crate::handle::{Handle, Kept};
use crate::mapping::Mapping;
use crate::request::mapping_of;
use crate::stop::NotRead;
use sd_check::Verdict;
use sd_sid::Mask;
use sd_wire::check_bytes;
use std::alloc::Global;

/// The verdict on a request ([MS-DTYP] 2.5.3.2), for the descriptor in the bytes and a kept token. The token's handle
/// is tested first, then the mapping, then the bytes. Takes no memory.
#[unsafe(no_mangle)]
#[tactic(auto, unfolding(crate::specs::OverBytes::request_over))]
pub extern "C" fn hudarin_check_bytes(
    alloc: Global,
    descriptor: &[u8],
    token: &mut Handle,
    mapping: Mapping,
    asked: u32,
) -> CheckAnswer
    ensures answer { result ≡ check_answer (request_over descriptor.now token.old mapping) asked }
    ensures token { Stays token.old token.new }
{
    let Some(kept) = token.take(alloc) else {
        return not_read(NotRead::TokenHandle);
    };
    let answer = answer_over(descriptor, &kept, mapping, asked);
    token.put(kept);
    answer
}

fn answer_over(descriptor: &[u8], kept: &Kept, mapping: Mapping, asked: u32) -> CheckAnswer
    ensures { result ≡ check_answer (asked_over descriptor.now kept.now mapping) asked }
{
    match verdict_over(descriptor, kept, mapping, asked) {
        Ok(verdict) => verdict_given(verdict),
        Err(why) => not_read(why),
    }
}

#[tactic(auto, unfolding(crate::specs::OverBytes::asked_over))]
fn verdict_over(
    descriptor: &[u8],
    kept: &Kept,
    mapping: Mapping,
    asked: u32,
) -> Result<Verdict, NotRead>
    ensures { result ≡ verdict_read (asked_over descriptor.now kept.now mapping) asked }
{
    let Kept::Token(token) = kept else {
        return Err(NotRead::TokenHandle);
    };
    let mapping = mapping_of(mapping)?;
    match check_bytes(descriptor, &mapping, token, Mask(asked)) {
        Ok(verdict) => Ok(verdict),
        Err(fault) => Err(NotRead::Descriptor(fault)),
    }
}
