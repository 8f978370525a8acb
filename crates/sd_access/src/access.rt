//! The answer to a question.

ghost use Rattle.std.specs.Prelude.{◌≡◌, IfOk, IsErrOf, Ok};
ghost use Rattle.sd_access.specs.Access.{context_for, explained_of, taken_from, TakesMemory};
ghost use Rattle.sd_access.specs.Access.{whole_reasons, whole_verdict};
ghost use Rattle.sd_acl.specs.Descriptor.{descriptor_of};
ghost use Rattle.sd_explain.specs.Parts.{reason_in, told_verdict};
ghost use Rattle.sd_specialize.specs.Specialize.{Gives, specialized};

use crate::question::Question;
use crate::resource::resource_claims;
use sd_acl::Descriptor;
use sd_check::Verdict;
use sd_client::Client;
use sd_evaluation::Facts;
use sd_explain::Explanation;
use sd_label::{Label, explain_under, verdict_under};
use sd_sid::Mask;
use sd_specialize::{Conditions, Context, SpecializeError, check_dacl, specialized};
use sd_whole::WholeDescriptor;
use std::alloc::Global;

/// Why a question is answered as it is ([MS-DTYP] 2.5.3.2).
#[derive(Drop)]
pub struct Explained {
    /// The plain descriptor for the question. Its entries have the numbers of the whole one's.
    pub descriptor: Descriptor,
    /// The reason of each bit, by the plain descriptor's entries.
    pub explanation: Explanation,
}

/// The verdict on the question ([MS-DTYP] 2.5.3): that of `check` on the plain descriptor for the question, without
/// what the object's label takes from the client. A fault is the first entry of the DACL that is refused, or that its
/// list would be too large. There are allocations for the object's claims and for conditions; no list is made.
pub fn check_whole(
    alloc: Global,
    question: &Question<'_>,
    descriptor: &WholeDescriptor,
) -> Result<Verdict, SpecializeError>
    ensures exact { Gives (λ verdict. verdict) result (whole_verdict question.now descriptor.now) }
    ensures memory { IsErrOf result SpecializeError.Memory → TakesMemory descriptor.now }
{
    let claims = resource_claims(alloc, &descriptor.sacl)?;
    let Question {
        chain,
        principal_self,
        mapping,
        asked,
        ..
    } = question;
    let client = question.client;
    let Client {
        token,
        device_groups,
        local,
        user,
        device,
        ..
    } = client;
    let facts = Facts {
        token,
        device_groups,
        local,
        user,
        device,
        resource: &claims,
    };
    let context = Context {
        conditions: Conditions::Evaluated(&facts),
        chain,
        principal_self: *principal_self,
    };
    let unlabelled = check_dacl(
        alloc,
        &context,
        &descriptor.owner,
        &descriptor.dacl,
        mapping,
        token,
        *asked,
    )?;
    let taken = taken_from(question, descriptor);
    Ok(verdict_under(taken, mapping, *asked, unlabelled))
}

/// Why the question is answered as it is ([MS-DTYP] 2.5.3): the plain descriptor for it, and the reason of each bit.
/// The verdict that follows from the reasons is that of `check_whole`, as are faults and allocations.
pub fn explain_whole(
    alloc: Global,
    question: &Question<'_>,
    descriptor: &WholeDescriptor,
) -> Result<Explained, SpecializeError>
    ensures exact { Gives explained_of result (whole_reasons question.now descriptor.now) }
    ensures verdict { IfOk result (λ explained. whole_verdict question.now descriptor.now
        ≡ Ok (told_verdict (reason_in explained.explanation.reasons))) }
    ensures memory { IsErrOf result SpecializeError.Memory → TakesMemory descriptor.now }
{
    let plain = plain_for(alloc, question, descriptor)?;
    let taken = taken_from(question, descriptor);
    let client = question.client;
    let explanation = explain_under(
        taken,
        &plain,
        question.mapping,
        &client.token,
        question.asked,
    );
    Ok(Explained {
        descriptor: plain,
        explanation,
    })
}

/// The plain descriptor that the whole one is for the question.
fn plain_for(
    alloc: Global,
    question: &Question<'_>,
    descriptor: &WholeDescriptor,
) -> Result<Descriptor, SpecializeError>
    ensures exact { Gives descriptor_of result (specialized (context_for question.now descriptor.now) descriptor.now) }
    ensures memory { IsErrOf result SpecializeError.Memory → TakesMemory descriptor.now }
{
    let resource = resource_claims(alloc, &descriptor.sacl)?;
    let client = question.client;
    let facts = Facts {
        token: &client.token,
        device_groups: &client.device_groups,
        local: &client.local,
        user: &client.user,
        device: &client.device,
        resource: &resource,
    };
    let context = Context {
        conditions: Conditions::Evaluated(&facts),
        chain: question.chain,
        principal_self: question.principal_self,
    };
    specialized(alloc, &context, descriptor)
}

/// What the object's label takes from the client.
fn taken_from(question: &Question<'_>, descriptor: &WholeDescriptor) -> Mask
    ensures { result ≡ taken_from question.now descriptor.now }
{
    let client = question.client;
    Label::of_object(&descriptor.sacl).taken(client.level, question.mapping)
}
