//! The check of what handles keep, and the end of a handle.

ghost use Rattle.std.specs.Prelude.{◌≡◌};
ghost use Rattle.sd_c.specs.CallAnswer.{check_answer};
ghost use Rattle.sd_c.specs.Kept.{Stays, asked_of, kept_request};
ghost use Rattle.sd_c.specs.Request.{verdict_read};

use crate::call_answer::{CheckAnswer, not_read, verdict_given};
use crate::handle::{Handle, Kept};
use crate::mapping::Mapping;
use crate::request::mapping_of;
use crate::stop::NotRead;
use sd_check::{Verdict, check};
use sd_sid::Mask;
use std::alloc::Global;

/// Frees what the handle keeps, if anything. After that it keeps nothing.
#[unsafe(no_mangle)]
pub extern "C" fn hudarin_release(alloc: Global, handle: &mut Handle)
    ensures { handle.new.is_there ≡ 0 }
{
    let _kept = handle.take(alloc);
}

/// The verdict on a request ([MS-DTYP] 2.5.3.2), for a kept descriptor and a kept token. Takes no memory.
#[unsafe(no_mangle)]
#[tactic(auto, unfolding(crate::specs::Kept::kept_request))]
pub extern "C" fn hudarin_check_kept(
    alloc: Global,
    descriptor: &mut Handle,
    token: &mut Handle,
    mapping: Mapping,
    asked: u32,
) -> CheckAnswer
    ensures answer { result ≡ check_answer (kept_request descriptor.old token.old mapping) asked }
    ensures descriptor { Stays descriptor.old descriptor.new }
    ensures token { Stays token.old token.new }
{
    let Some(first) = descriptor.take(alloc) else {
        return not_read(NotRead::DescriptorHandle);
    };
    let Some(second) = token.take(alloc) else {
        descriptor.put(first);
        return not_read(NotRead::TokenHandle);
    };
    let answer = answer_of(&first, &second, mapping, asked);
    descriptor.put(first);
    token.put(second);
    answer
}

fn answer_of(first: &Kept, second: &Kept, mapping: Mapping, asked: u32) -> CheckAnswer
    ensures { result ≡ check_answer (asked_of first.now second.now mapping) asked }
{
    match verdict_on(first, second, mapping, asked) {
        Ok(verdict) => verdict_given(verdict),
        Err(why) => not_read(why),
    }
}

#[tactic(auto, unfolding(crate::specs::Kept::asked_of))]
fn verdict_on(first: &Kept, second: &Kept, mapping: Mapping, asked: u32) -> Result<Verdict, NotRead>
    ensures { result ≡ verdict_read (asked_of first.now second.now mapping) asked }
{
    let Kept::Descriptor(descriptor) = first else {
        return Err(NotRead::DescriptorHandle);
    };
    let Kept::Token(token) = second else {
        return Err(NotRead::TokenHandle);
    };
    let mapping = mapping_of(mapping)?;
    Ok(check(descriptor, &mapping, token, Mask(asked)))
}
