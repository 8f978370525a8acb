//! The verdict where a label takes rights.

ghost use Rattle.std.specs.Prelude.{◌≡◌, ◌==◌, if◌then◌else◌, List, Option};
ghost use Rattle.sd_acl.specs.declared.ace.Ace.{Ace};
ghost use Rattle.sd_sid.specs.Sid.{SidValue};
ghost use Rattle.sd_check.specs.Check.{verdict};
ghost use Rattle.sd_check.specs.Token.{TokenValue};
ghost use Rattle.sd_label.specs.Under.{verdict_under};

use sd_check::{MAXIMUM_ALLOWED, Verdict};
use sd_sid::{GenericMapping, Mask};

/// The verdict on a request where the object's label takes rights ([MS-DTYP] 2.5.3.3), as `Label::taken` returns them,
/// from the one without a label. Takes no memory.
pub fn verdict_under(
    taken: Mask,
    mapping: &GenericMapping,
    asked: Mask,
    unlabelled: Verdict,
) -> Verdict
    ensures { (owner : Option SidValue) (dacl : Option (List Ace)) (t : TokenValue)
        → unlabelled ≡ verdict owner dacl mapping.now t asked
        → result ≡ verdict_under taken owner dacl mapping.now t asked }
{
    let lost = mapping.map(asked.minus(MAXIMUM_ALLOWED)).common(taken);
    match unlabelled {
        Verdict::Granted(granted) if lost.is_empty() => what_is_left(granted.minus(taken)),
        Verdict::Granted(_) => Verdict::Denied { missing: lost },
        Verdict::Denied { missing } => Verdict::Denied {
            missing: missing.union(lost),
        },
        other => other,
    }
}

/// What is granted, where the label takes nothing that the request names; where nothing is left, MAXIMUM_ALLOWED itself
/// is missing.
fn what_is_left(left: Mask) -> Verdict
    ensures { result ≡ (if left == 0 then Verdict.Denied 0x02000000 else Verdict.Granted left) }
{
    if left.is_empty() {
        return Verdict::Denied {
            missing: MAXIMUM_ALLOWED,
        };
    }
    Verdict::Granted(left)
}
