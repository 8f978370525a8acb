//! The check of whole descriptors, by a kept client.

ghost use Rattle.std.specs.Prelude.{◌≡◌, ◌⊎◌, IsErrOf, Ok};
ghost use Rattle.sd_access.specs.Access.{TakesMemory};
ghost use Rattle.sd_whole.specs.Memory.{WholeTakesMemory};
ghost use Rattle.sd_whole.specs.Reading.{whole_read};
ghost use Rattle.sd_c.specs.Kept.{Stays};
ghost use Rattle.sd_c.specs.Request.{Gives};
ghost use Rattle.sd_c.specs.WholeCheck.{AnswersWhole, TakesMemoryOver, question_by, question_read};
ghost use Rattle.sd_c.specs.WholeCheck.{unless_denied, verdict_over};

use crate::call_answer::{CheckAnswer, not_read, verdict_given, why_not};
use crate::handle::{Handle, Kept};
use crate::mapping::Mapping;
use crate::question::{Terms, types_in, whole_of};
use crate::stop::{NotRead, Stop};
use sd_access::{Question, check_whole, may_be_denied};
use sd_check::Verdict;
use sd_specialize::SpecializeError;
use sd_whole::WholeDescriptor;
use std::alloc::Global;

/// The verdict on a request ([MS-DTYP] 2.5.3), for the whole descriptor in the bytes and a kept client: by entries of
/// every type, the claims and the label of the SACL, as `check_whole` gives it. The question is about the object types,
/// from the class on, at most five of 16 bytes each ([MS-DTYP] 2.3.4.2), and without one about the whole object. The
/// SID at the front of `principal_self` is that for which PRINCIPAL SELF stands; without bytes it stands for itself.
/// The client's handle is tested first, then the object types, then the SID, then the mapping, then the bytes; last is
/// whether the DACL can be decided, and whether an entry of the SACL may deny what it grants ([MS-DTYP] 2.5.3.3). There
/// are allocations for the object types and the descriptor, and those of `check_whole`.
#[unsafe(no_mangle)]
#[tactic(auto, unfolding(crate::specs::WholeCheck::question_read))]
pub extern "C" fn hudarin_check_whole(
    alloc: Global,
    descriptor: &[u8],
    client: &mut Handle,
    types: &[u8],
    principal_self: &[u8],
    mapping: Mapping,
    asked: u32,
) -> CheckAnswer
    ensures answer { AnswersWhole descriptor.now types.now
        (question_read client.old types.now principal_self.now mapping asked) result }
    ensures client { Stays client.old client.new }
{
    let Some(kept) = client.take(alloc) else {
        return not_read(NotRead::ClientHandle);
    };
    let answer = answer_by(
        alloc,
        descriptor,
        &kept,
        types,
        principal_self,
        mapping,
        asked,
    );
    client.put(kept);
    answer
}

fn answer_by(
    alloc: Global,
    descriptor: &[u8],
    kept: &Kept,
    types: &[u8],
    principal_self: &[u8],
    mapping: Mapping,
    asked: u32,
) -> CheckAnswer
    ensures { AnswersWhole descriptor.now types.now
        (question_by kept.now types.now principal_self.now mapping asked) result }
{
    match verdict_by(
        alloc,
        descriptor,
        kept,
        types,
        principal_self,
        mapping,
        asked,
    ) {
        Ok(verdict) => verdict_given(verdict),
        Err(why) => why_not(why),
    }
}

#[tactic(auto, unfolding(crate::specs::WholeCheck::question_by))]
fn verdict_by(
    alloc: Global,
    descriptor: &[u8],
    kept: &Kept,
    types: &[u8],
    principal_self: &[u8],
    mapping: Mapping,
    asked: u32,
) -> Result<Verdict, Stop>
    ensures read { Gives (λ verdict. verdict) result
        (verdict_over descriptor.now
        (question_by kept.now types.now principal_self.now mapping asked)) }
    ensures memory { IsErrOf result Stop.Memory → TakesMemoryOver descriptor.now types.now }
{
    let Kept::Client(client) = kept else {
        return Err(Stop::NotRead(NotRead::ClientHandle));
    };
    let chain = types_in(alloc, types)?;
    let terms = Terms::read(principal_self, mapping)?;
    verdict_on(alloc, descriptor, &terms.question(client, &chain, asked))
}

/// The verdict on the question about the descriptor that the bytes hold.
fn verdict_on(alloc: Global, bytes: &[u8], question: &Question<'_>) -> Result<Verdict, Stop>
    ensures read { Gives (λ verdict. verdict) result (verdict_over bytes.now (Ok question.now)) }
    ensures memory { IsErrOf result Stop.Memory → WholeTakesMemory bytes.now
        ⊎ ((w : WholeDescriptor) × (whole_read bytes.now ≡ Ok w) × TakesMemory w) }
{
    let descriptor = whole_of(alloc, bytes)?;
    match check_whole(alloc, question, &descriptor) {
        Ok(verdict) => Ok(unless_denied(&descriptor, verdict)?),
        Err(SpecializeError::Fault(fault)) => Err(Stop::NotRead(NotRead::Undecided(fault))),
        Err(SpecializeError::Memory) => Err(Stop::Memory),
    }
}

/// The verdict, unless an entry of the SACL may deny what it grants.
pub(crate) fn unless_denied(
    descriptor: &WholeDescriptor,
    verdict: Verdict,
) -> Result<Verdict, NotRead>
    ensures { result ≡ unless_denied descriptor.now verdict }
{
    if may_be_denied(&verdict, descriptor) {
        return Err(NotRead::MayBeDenied);
    }
    Ok(verdict)
}
