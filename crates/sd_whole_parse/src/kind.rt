//! The types of entries: [MS-DTYP] 2.5.1.1, ace-type.

ghost use Rattle.std.specs.Prelude.{◌≡◌, Err};
ghost use Rattle.sd_text.specs.Finding.{Gives, find};
ghost use Rattle.sd_whole_parse.specs.Kind.{no_kind, whole_kind};

use sd_text::{Cursor, TextFault};
use sd_whole::WholeKind;

/// The types of one letter.
static SHORT_KINDS: [(&str, WholeKind); 2] = [("A", WholeKind::Allow), ("D", WholeKind::Deny)];

/// The types of two letters.
static LONG_KINDS: [(&str, WholeKind); 15] = [
    ("AU", WholeKind::Audit),
    ("AL", WholeKind::Alarm),
    ("OA", WholeKind::ObjectAllow),
    ("OD", WholeKind::ObjectDeny),
    ("OU", WholeKind::ObjectAudit),
    ("OL", WholeKind::ObjectAlarm),
    ("XA", WholeKind::CallbackAllow),
    ("XD", WholeKind::CallbackDeny),
    ("ZA", WholeKind::CallbackObjectAllow),
    ("XU", WholeKind::CallbackAudit),
    ("ML", WholeKind::MandatoryLabel),
    ("RA", WholeKind::ResourceAttribute),
    ("SP", WholeKind::ScopedPolicy),
    ("TL", WholeKind::TrustLabel),
    ("FL", WholeKind::AccessFilter),
];

/// The type of an entry: all letters here.
#[tactic(auto, unfolding(crate::specs::Kind::whole_kind))]
pub(crate) fn read_kind(cursor: &mut Cursor<'_>) -> Result<WholeKind, TextFault>
    ensures { Gives (λ kind. kind) result cursor.new.rest.now (find whole_kind cursor.old.rest.now) }
{
    let kind = if !cursor.letter_at(1) {
        cursor.name(&SHORT_KINDS)
    } else if !cursor.letter_at(2) {
        cursor.name(&LONG_KINDS)
    } else {
        None
    };
    match kind {
        Some(kind) => Ok(kind),
        None => Err(no_kind(cursor)),
    }
}

/// The fault where there is no type.
#[tactic(auto, unfolding(crate::specs::Kind::no_kind))]
fn no_kind(cursor: &Cursor<'_>) -> TextFault
    ensures { find no_kind cursor.now.rest.now ≡ Err (result, cursor.now.rest.now) }
{
    if cursor.letter_at(0) {
        TextFault::EntryKind
    } else {
        TextFault::Syntax
    }
}
