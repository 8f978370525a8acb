//! Opens of existing files by a kept token, over the bytes of two descriptors.

ghost use Rattle.std.specs.Prelude.{◌≡◌, IsErrOf, option_map};
ghost use Rattle.sd_acl.specs.Descriptor.{descriptor_of};
ghost use Rattle.sd_open.specs.Open.{open_verdict};
ghost use Rattle.sd_wire.specs.Memory.{TakesMemory};
ghost use Rattle.sd_c.specs.Kept.{Stays};
ghost use Rattle.sd_c.specs.Open.{AnswersOpen, OpenTakesMemory, open_by, open_read, parent_read};
ghost use Rattle.sd_c.specs.Request.{Gives};

use crate::call_answer::{CheckAnswer, not_read, verdict_given, why_not};
use crate::handle::{Handle, Kept};
use crate::mapping::Mapping;
use crate::request::{descriptor_of, mapping_of};
use crate::stop::{NotRead, Stop};
use sd_acl::Descriptor;
use sd_check::{Token, Verdict};
use sd_open::check_open;
use sd_sid::{GenericMapping, Mask};
use sd_wire::{WireError, read_descriptor};
use std::alloc::Global;

/// The verdict on an open of an existing file ([MS-FSA] 2.1.5.1.2.1), for its descriptor and that of its parent, in
/// their bytes, and a kept token, as `check_open` gives it. Without bytes of a parent there is none, as for a volume's
/// root. The token's handle is tested first, then the mapping, then the file's bytes, then the parent's. There are
/// allocations for the entries of both.
#[unsafe(no_mangle)]
#[tactic(auto, unfolding(crate::specs::Open::open_read))]
pub extern "C" fn hudarin_check_open(
    alloc: Global,
    file: &[u8],
    parent: &[u8],
    token: &mut Handle,
    mapping: Mapping,
    asked: u32,
) -> CheckAnswer
    ensures answer { AnswersOpen file.now parent.now (open_read file.now parent.now token.old mapping asked) result }
    ensures token { Stays token.old token.new }
{
    let Some(kept) = token.take(alloc) else {
        return not_read(NotRead::TokenHandle);
    };
    let answer = answer_by(alloc, file, parent, &kept, mapping, asked);
    token.put(kept);
    answer
}

fn answer_by(
    alloc: Global,
    file: &[u8],
    parent: &[u8],
    kept: &Kept,
    mapping: Mapping,
    asked: u32,
) -> CheckAnswer
    ensures { AnswersOpen file.now parent.now (open_by file.now parent.now kept.now mapping asked) result }
{
    match verdict_by(alloc, file, parent, kept, mapping, asked) {
        Ok(verdict) => verdict_given(verdict),
        Err(stop) => why_not(stop),
    }
}

#[tactic(auto, unfolding(crate::specs::Open::open_by))]
fn verdict_by(
    alloc: Global,
    file: &[u8],
    parent: &[u8],
    kept: &Kept,
    mapping: Mapping,
    asked: u32,
) -> Result<Verdict, Stop>
    ensures read { Gives (λ verdict. verdict) result (open_by file.now parent.now kept.now mapping asked) }
    ensures memory { IsErrOf result Stop.Memory → OpenTakesMemory file.now parent.now }
{
    let Kept::Token(token) = kept else {
        return Err(Stop::NotRead(NotRead::TokenHandle));
    };
    let mapping = mapping_of(mapping)?;
    let file = descriptor_of(alloc, file)?;
    let parent = parent_of(alloc, parent)?;
    Ok(verdict_on(&file, &parent, &mapping, token, asked))
}

/// The verdict on an open by what the arguments hold.
fn verdict_on(
    file: &Descriptor,
    parent: &Option<Descriptor>,
    mapping: &GenericMapping,
    token: &Token,
    asked: u32,
) -> Verdict
    ensures { result
        ≡ open_verdict (descriptor_of file.now) (option_map descriptor_of parent.now) mapping.now token.now asked }
{
    check_open(file, parent.as_ref(), mapping, token, Mask(asked))
}

/// The parent's descriptor, where there are bytes.
fn parent_of(alloc: Global, bytes: &[u8]) -> Result<Option<Descriptor>, Stop>
    ensures read { Gives (λ parent. option_map descriptor_of parent) result (parent_read bytes.now) }
    ensures memory { IsErrOf result Stop.Memory → TakesMemory bytes.now }
{
    if bytes.is_empty() {
        return Ok(None);
    }
    match read_descriptor(alloc, bytes) {
        Ok(descriptor) => Ok(Some(descriptor)),
        Err(WireError::Fault(fault)) => Err(Stop::NotRead(NotRead::Parent(fault))),
        Err(WireError::Memory) => Err(Stop::Memory),
    }
}
