//! The flags, the rights and the SID of an entry: [MS-DTYP] 2.5.1.1, ace-flag-string, ace-rights and sid-string.

ghost use Rattle.std.specs.Prelude.{◌≡◌, Ok, is_some, if◌then◌else◌};
ghost use Rattle.sd_text.specs.Finding.{Gives, find};
ghost use Rattle.sd_text.specs.Grammar.{named};
ghost use Rattle.sd_text.specs.Names.{rows};
ghost use Rattle.sd_text.specs.Rights.{bits_of};
ghost use Rattle.sd_whole_text.specs.Level.{level_sid};
ghost use Rattle.sd_whole_parse.specs.Fields.{all_flag_names, filter_flag_names, flags_of, label_names, rights_of};
ghost use Rattle.sd_whole_parse.specs.Fields.{trustee_of};

use bitflags::Flags;
use sd_acl::AceFlags;
use sd_sid::{Mask, Sid};
use sd_text::{Aliases, Cursor, TextFault};
use sd_whole::WholeKind;
use sd_whole_text::level_names;

/// The names of flags of an access filter ([MS-DTYP] 2.4.4.1, AceFlags). All but the last are those of any entry.
static FLAGS: [(&str, u32); 9] = [
    ("OI", 0x01),
    ("CI", 0x02),
    ("NP", 0x04),
    ("IO", 0x08),
    ("ID", 0x10),
    ("SA", 0x40),
    ("FA", 0x80),
    ("CR", 0x20),
    ("TP", 0x40),
];

/// What a mandatory label denies to lower levels ([MS-DTYP] 2.4.4.13).
static LABEL_RIGHTS: [(&str, u32); 3] = [("NW", 1), ("NR", 2), ("NX", 4)];

/// The authority of the SIDs of mandatory labels ([MS-DTYP] 2.4.2.4, S-1-16).
const LABEL_AUTHORITY: u64 = 16;

/// A run of flags, perhaps empty.
#[tactic(auto, unfolding(crate::specs::Fields::flags_of))]
pub(crate) fn read_flags(cursor: &mut Cursor<'_>, kind: WholeKind) -> AceFlags
    ensures { find (flags_of kind) cursor.old.rest.now ≡ Ok (result.0, cursor.new.rest.now) }
{
    let names = flag_names(matches!(kind, WholeKind::AccessFilter));
    let bits = read_bits(cursor, names);
    AceFlags::from_bits_retain(bits as u8)
}

/// The names of flags of an access filter, or of any other entry.
fn flag_names(is_filter: bool) -> &'static [(&'static str, u32)]
    ensures { rows result.now ≡ (if is_filter then filter_flag_names else all_flag_names) }
{
    if is_filter { &FLAGS } else { &FLAGS[..8] }
}

/// The rights of an entry: a label's by its own names, if one is here.
#[tactic(auto, unfolding(crate::specs::Fields::rights_of))]
pub(crate) fn read_rights(cursor: &mut Cursor<'_>, kind: WholeKind) -> Result<Mask, TextFault>
    ensures { Gives (λ mask. mask) result cursor.new.rest.now (find (rights_of kind) cursor.old.rest.now) }
{
    if matches!(kind, WholeKind::MandatoryLabel) && is_label_right(cursor) {
        Ok(Mask(read_bits(cursor, &LABEL_RIGHTS)))
    } else {
        cursor.rights()
    }
}

/// Whether a name of a label's rights is here.
fn is_label_right(cursor: &Cursor<'_>) -> bool
    ensures { result ≡ is_some (named label_names cursor.now.rest.now) }
{
    let mut ahead = Cursor { rest: cursor.rest };
    ahead.name(&LABEL_RIGHTS).is_some()
}

/// The SID of an entry of this kind: a label's also by the alias of its level.
#[tactic(auto, unfolding(crate::specs::Fields::trustee_of))]
pub(crate) fn read_sid_of(
    cursor: &mut Cursor<'_>,
    kind: WholeKind,
    known: Aliases,
) -> Result<Sid, TextFault>
    ensures { Gives (λ sid. sid) result cursor.new.rest.now (find (trustee_of kind known) cursor.old.rest.now) }
{
    if !matches!(kind, WholeKind::MandatoryLabel) {
        return cursor.sid(known);
    }
    match cursor.name(level_names()) {
        Some(level) => Ok(level_sid(level)),
        None => cursor.sid(known),
    }
}

fn level_sid(level: u32) -> Sid
    ensures { result ≡ level_sid level }
{
    Sid::new(LABEL_AUTHORITY, &[level]).unwrap()
}

/// A run of names, perhaps empty. Returns the union of their bits.
fn read_bits(cursor: &mut Cursor<'_>, names: &[(&str, u32)]) -> u32
    ensures { find (bits_of (rows names.now)) cursor.old.rest.now ≡ Ok (result, cursor.new.rest.now) }
{
    let mut bits = 0;
    'names: loop {
        match cursor.name(names) {
            Some(more) => bits |= more,
            None => return bits,
        }
    }
}
