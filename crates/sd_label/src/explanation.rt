//! The reasons where a label takes rights.

ghost use Rattle.std.specs.Prelude.{◌≡◌, ◌<◌};
ghost use Rattle.sd_sid.specs.Mask.{holds};
ghost use Rattle.sd_check.specs.Check.{dacl_entries};
ghost use Rattle.sd_explain.specs.Parts.{reason_in, told_verdict};
ghost use Rattle.sd_explain.specs.Reasons.{reasons_of};
ghost use Rattle.sd_label.specs.Under.{denied_by_label, reason_under, reasons_under, verdict_under};

use sd_acl::Descriptor;
use sd_check::Token;
use sd_explain::{Cause, Explanation, PLACES, Reason, explain_descriptor};
use sd_sid::{GenericMapping, Mask};

/// Why a request is answered as it is, for a descriptor and what the object's label takes ([MS-DTYP] 2.5.3.3), as
/// `Label::taken` returns it: the reason of each bit. The verdict that follows from the reasons is that of
/// `verdict_under`. Takes no memory.
pub fn explain_under(
    taken: Mask,
    descriptor: &Descriptor,
    mapping: &GenericMapping,
    token: &Token,
    asked: Mask,
) -> Explanation
    ensures reasons { result.reasons ≡ reasons_under taken (reasons_of descriptor.now.owner
        (dacl_entries descriptor.now.dacl) mapping.now token.now asked) }
    ensures verdict { told_verdict (reason_in result.reasons) ≡ verdict_under taken descriptor.now.owner
        (dacl_entries descriptor.now.dacl) mapping.now token.now asked }
{
    let mut reasons = explain_descriptor(descriptor, mapping, token, asked).reasons;
    for place in 0..PLACES {
        let before = reasons[place as usize];
        reasons[place as usize] = reason_under(taken, place, before);
    }
    Explanation { reasons }
}

/// The reason of the place, from what it is without the label.
fn reason_under(taken: Mask, place: u32, before: Option<Reason>) -> Option<Reason>
    requires { place < 32 }
    ensures { result ≡ reason_under taken place before }
{
    before.map(|reason| denied_by_label(taken.holds(place), reason))
}

/// The reason of a bit that the label takes or leaves.
fn denied_by_label(takes: bool, reason: Reason) -> Reason
    ensures { result ≡ denied_by_label takes reason }
{
    if takes && reason.cause != Cause::Reserved {
        Reason {
            named: reason.named,
            cause: Cause::Label,
        }
    } else {
        reason
    }
}
