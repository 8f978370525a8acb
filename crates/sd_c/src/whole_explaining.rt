//! Why whole descriptors answer as they do, for a kept client.

ghost use Rattle.std.specs.Prelude.{◌≡◌, ◌⊎◌, IfOk, IsErrOf, Ok};
ghost use Rattle.sd_access.specs.Access.{TakesMemory};
ghost use Rattle.sd_explain.specs.Parts.{reason_in, told_verdict};
ghost use Rattle.sd_whole.specs.Memory.{WholeTakesMemory};
ghost use Rattle.sd_whole.specs.Reading.{whole_read};
ghost use Rattle.sd_c.specs.Kept.{Stays};
ghost use Rattle.sd_c.specs.Request.{Gives};
ghost use Rattle.sd_c.specs.WholeCheck.{ExplainsWhole, TakesMemoryOver, question_by, question_read, reasons_over};
ghost use Rattle.sd_c.specs.WholeCheck.{verdict_over};

use crate::call_answer::{not_read, verdict_given, why_not};
use crate::explaining::{Explained, parts_of, unexplained};
use crate::handle::{Handle, Kept};
use crate::mapping::Mapping;
use crate::question::{Terms, types_in, whole_of};
use crate::stop::{NotRead, Stop};
use crate::whole_check::unless_denied;
use sd_access::{Question, explain_whole};
use sd_explain::Explanation;
use sd_specialize::SpecializeError;
use sd_whole::WholeDescriptor;
use std::alloc::Global;

/// Why the verdict on a request is what it is ([MS-DTYP] 2.5.3), for the whole descriptor in the bytes and a kept
/// client: the verdict of `hudarin_check_whole` with the same arguments, and the request's parts. An entry's index is
/// its own in the DACL. Refused as that call, with the same allocations.
#[unsafe(no_mangle)]
#[tactic(auto, unfolding(crate::specs::WholeCheck::question_read))]
pub extern "C" fn hudarin_explain_whole(
    alloc: Global,
    descriptor: &[u8],
    client: &mut Handle,
    types: &[u8],
    principal_self: &[u8],
    mapping: Mapping,
    asked: u32,
) -> Explained
    ensures answer { ExplainsWhole descriptor.now types.now
        (question_read client.old types.now principal_self.now mapping asked) result }
    ensures client { Stays client.old client.new }
{
    let Some(kept) = client.take(alloc) else {
        return unexplained(not_read(NotRead::ClientHandle));
    };
    let answer = answer_by(
        alloc,
        descriptor,
        &kept,
        types,
        principal_self,
        mapping,
        asked,
    );
    client.put(kept);
    answer
}

fn answer_by(
    alloc: Global,
    descriptor: &[u8],
    kept: &Kept,
    types: &[u8],
    principal_self: &[u8],
    mapping: Mapping,
    asked: u32,
) -> Explained
    ensures { ExplainsWhole descriptor.now types.now
        (question_by kept.now types.now principal_self.now mapping asked) result }
{
    match explanation_by(
        alloc,
        descriptor,
        kept,
        types,
        principal_self,
        mapping,
        asked,
    ) {
        Ok(explanation) => Explained {
            answer: verdict_given(explanation.verdict()),
            parts: parts_of(&explanation),
        },
        Err(why) => unexplained(why_not(why)),
    }
}

#[tactic(auto, unfolding(crate::specs::WholeCheck::question_by))]
fn explanation_by(
    alloc: Global,
    descriptor: &[u8],
    kept: &Kept,
    types: &[u8],
    principal_self: &[u8],
    mapping: Mapping,
    asked: u32,
) -> Result<Explanation, Stop>
    ensures read { Gives (λ explanation. explanation.reasons) result
        (reasons_over descriptor.now
        (question_by kept.now types.now principal_self.now mapping asked)) }
    ensures verdict { IfOk result (λ explanation. verdict_over descriptor.now
        (question_by kept.now types.now principal_self.now mapping asked)
        ≡ Ok (told_verdict (reason_in explanation.reasons))) }
    ensures memory { IsErrOf result Stop.Memory → TakesMemoryOver descriptor.now types.now }
{
    let Kept::Client(client) = kept else {
        return Err(Stop::NotRead(NotRead::ClientHandle));
    };
    let chain = types_in(alloc, types)?;
    let terms = Terms::read(principal_self, mapping)?;
    explanation_on(alloc, descriptor, &terms.question(client, &chain, asked))
}

/// Why the question about the descriptor that the bytes hold is answered as it is.
fn explanation_on(alloc: Global, bytes: &[u8], question: &Question<'_>) -> Result<Explanation, Stop>
    ensures read { Gives (λ explanation. explanation.reasons) result (reasons_over bytes.now (Ok question.now)) }
    ensures verdict { IfOk result (λ explanation. verdict_over bytes.now (Ok question.now)
        ≡ Ok (told_verdict (reason_in explanation.reasons))) }
    ensures memory { IsErrOf result Stop.Memory → WholeTakesMemory bytes.now
        ⊎ ((w : WholeDescriptor) × (whole_read bytes.now ≡ Ok w) × TakesMemory w) }
{
    let descriptor = whole_of(alloc, bytes)?;
    match explain_whole(alloc, question, &descriptor) {
        Ok(explained) => {
            unless_denied(&descriptor, explained.explanation.verdict())?;
            Ok(explained.explanation)
        }
        Err(SpecializeError::Fault(fault)) => Err(Stop::NotRead(NotRead::Undecided(fault))),
        Err(SpecializeError::Memory) => Err(Stop::Memory),
    }
}
