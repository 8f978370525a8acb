//! The aliases of integrity levels: [MS-DTYP] 2.5.1.1, sid-token.

ghost use Rattle.std.specs.Prelude.{◌≡◌, ◌++◌, OnOk, option_map, string_bytes};
ghost use Rattle.sd_text.specs.Names.{rows};
ghost use Rattle.sd_whole_text.specs.Level.{alias_in, level_alias, level_names, trustee_text};

use sd_sid::Sid;
use sd_text::write_sid;
use sd_whole::WholeKind;
use std::alloc::AllocError;

/// The authority of the SIDs of mandatory labels ([MS-DTYP] 2.4.2.4, S-1-16).
const LABEL_AUTHORITY: u64 = 16;

static LEVELS: [(&str, u32); 5] = [
    ("LW", 4096),
    ("ME", 8192),
    ("MP", 8448),
    ("HI", 12288),
    ("SI", 16384),
];

/// The aliases of integrity levels, low, medium, medium plus, high and system, each with the sub-authority of its SID
/// ([MS-DTYP] 2.4.2.4, 2.5.1.1).
pub fn level_names() -> &'static [(&'static str, u32)]
    ensures { rows result.now ≡ level_names }
{
    &LEVELS
}

/// Appends the SID of an entry of this kind: a label's by the alias of its level, if it has one.
pub(crate) fn push_trustee(out: &mut String, kind: WholeKind, sid: &Sid) -> Result<(), AllocError>
    ensures { OnOk result (string_bytes out.new ≡ string_bytes out.old ++ trustee_text kind sid.now) }
{
    match kind {
        WholeKind::MandatoryLabel => match level_alias(sid) {
            Some(alias) => out.push_str(alias),
            None => write_sid(out, sid),
        },
        _ => write_sid(out, sid),
    }
}

/// The alias of the level that the SID is.
fn level_alias(sid: &Sid) -> Option<&'static str>
    ensures { option_map (λ alias. alias.now) result ≡ level_alias sid.now }
{
    if sid.authority() != LABEL_AUTHORITY {
        return None;
    }
    match sid.subs() {
        [level] => alias_in(level_names(), *level),
        _ => None,
    }
}

/// The alias of the first of these rows with this level.
fn alias_in(names: &[(&'static str, u32)], level: u32) -> Option<&'static str>
    ensures { option_map (λ alias. alias.now) result ≡ alias_in (rows names.now) level }
{
    match names {
        [] => None,
        [name, _names @ ..] if name.1 == level => Some(name.0),
        [_name, names @ ..] => alias_in(names, level),
    }
}
