//! The letters of the types of entries: [MS-DTYP] 2.5.1.1, ace-type.

ghost use Rattle.std.specs.Prelude.{◌≡◌};
ghost use Rattle.sd_whole_text.specs.Kind.{kind_of_plain, letters_of};

use sd_acl::AceKind;
use sd_whole::WholeKind;

/// An allow or a deny as a kind.
pub(crate) fn kind_of_plain(kind: AceKind) -> WholeKind
    ensures { result ≡ kind_of_plain kind }
{
    match kind {
        AceKind::Allow => WholeKind::Allow,
        AceKind::Deny => WholeKind::Deny,
    }
}

/// The letters of a type, none for 0x0c and 0x0f ([MS-DTYP] 2.5.1.1, ace-type).
pub(crate) fn letters_of(kind: WholeKind) -> &'static str
    ensures { result.now ≡ letters_of kind }
{
    match kind {
        WholeKind::Allow => "A",
        WholeKind::Deny => "D",
        WholeKind::Audit => "AU",
        WholeKind::Alarm => "AL",
        WholeKind::ObjectAllow => "OA",
        WholeKind::ObjectDeny => "OD",
        WholeKind::ObjectAudit => "OU",
        WholeKind::ObjectAlarm => "OL",
        WholeKind::CallbackAllow => "XA",
        WholeKind::CallbackDeny => "XD",
        WholeKind::CallbackObjectAllow => "ZA",
        WholeKind::CallbackAudit => "XU",
        WholeKind::MandatoryLabel => "ML",
        WholeKind::ResourceAttribute => "RA",
        WholeKind::ScopedPolicy => "SP",
        WholeKind::TrustLabel => "TL",
        WholeKind::AccessFilter => "FL",
        WholeKind::CallbackObjectDeny | WholeKind::CallbackObjectAudit => "",
    }
}
