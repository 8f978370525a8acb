//! Control bits, and other bits that have words ([MS-DTYP] 2.4.6).

ghost use Rattle.std.specs.Prelude.{◌≡◌, IfOk, map};
ghost use Rattle.sd_line.specs.declared.line.Value.TheVariants.{Words};
ghost use Rattle.sd_show.specs.Control.{bits_of, field_of, name_of, rows, words_set};

use sd_line::Value;
use sd_whole_text::AclKind;
use std::alloc::{AllocError, Global};

/// A bit, and its word.
pub(crate) type BitWord = (u32, &'static str);

/// A part of a descriptor of which control bits speak.
#[derive(Clone, Copy, PartialEq, Eq)]
pub(crate) enum Field {
    Owner,
    Group,
    ResourceManager,
    Dacl,
    Sacl,
}

/// OD.
static OWNER: [BitWord; 1] = [(0x0001, "defaulted")];

/// GD.
static GROUP: [BitWord; 1] = [(0x0002, "defaulted")];

/// RM.
static RESOURCE_MANAGER: [BitWord; 1] = [(0x4000, "valid")];

/// PD, DC, DI, DD, DT and SS.
static DACL: [BitWord; 6] = [
    (0x1000, "protected"),
    (0x0100, "auto-inherit-required"),
    (0x0400, "auto-inherited"),
    (0x0008, "defaulted"),
    (0x0080, "trusted"),
    (0x0040, "server-security"),
];

/// PS, SC, SI and SD.
static SACL: [BitWord; 4] = [
    (0x2000, "protected"),
    (0x0200, "auto-inherit-required"),
    (0x0800, "auto-inherited"),
    (0x0020, "defaulted"),
];

impl Field {
    /// A list as a part.
    pub(crate) fn of(acl: AclKind) -> Field
        ensures { result ≡ field_of acl }
    {
        match acl {
            AclKind::Dacl => Field::Dacl,
            AclKind::Sacl => Field::Sacl,
        }
    }

    /// What lines call it.
    pub(crate) fn name(self) -> &'static str
        ensures { result.now ≡ name_of self }
    {
        match self {
            Field::Owner => "owner",
            Field::Group => "group",
            Field::ResourceManager => "resource manager",
            Field::Dacl => "dacl",
            Field::Sacl => "sacl",
        }
    }

    /// The control bits that speak of it ([MS-DTYP] 2.4.6).
    pub(crate) fn bits(self) -> &'static [BitWord]
        ensures { rows result.now ≡ bits_of self }
    {
        match self {
            Field::Owner => &OWNER,
            Field::Group => &GROUP,
            Field::ResourceManager => &RESOURCE_MANAGER,
            Field::Dacl => &DACL,
            Field::Sacl => &SACL,
        }
    }
}

/// The words of the bits that are set, as a value of a line.
pub(crate) fn words_value(alloc: Global, named: &[BitWord], bits: u32) -> Result<Value, AllocError>
    ensures { IfOk result (λ value. value ≡ Words (words_set (rows named.now) bits)) }
{
    let words = words_set(alloc, named, bits)?;
    Value::words(alloc, &words)
}

/// The words of the bits that are set.
#[tactic(auto, unfolding(crate::specs::Control::words_set))]
pub(crate) fn words_set(
    alloc: Global,
    named: &[BitWord],
    bits: u32,
) -> Result<Vec<&'static str>, AllocError>
    ensures { IfOk result (λ words. map (λ word. word.now) words.items ≡ words_set (rows named.now) bits) }
{
    let mut words = Vec::new(alloc);
    for (bit, word) in named {
        if bits & *bit != 0 {
            words.push(*word)?;
        }
    }
    Ok(words)
}
