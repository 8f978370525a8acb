//! Attributes.

ghost use Rattle.std.specs.Prelude.{◌≡◌};
ghost use Rattle.sd_data.specs.Outcome.{Gives};
ghost use Rattle.sd_condition.specs.Reading.{attribute_read};
ghost use Rattle.sd_condition.specs.Table.{scope_byte, scope_read};

use sd_data::{Refusal, Utf16, read_text};
use std::alloc::Global;

/// Where an attribute comes from ([MS-DTYP] 2.4.4.17.8).
#[derive(Clone, Copy, Debug, PartialEq, Eq)]
pub enum Scope {
    /// A claim of the token, without a prefix in text.
    Local,
    /// `@User.`
    User,
    /// `@Resource.`
    Resource,
    /// `@Device.`
    Device,
}

/// An attribute's name, and where it comes from ([MS-DTYP] 2.4.4.17.8).
#[derive(Debug, Drop)]
pub struct Attribute {
    pub scope: Scope,
    pub name: Utf16,
}

impl Scope {
    /// The byte of an attribute's token, which says its scope.
    pub(crate) fn byte(self) -> u8
        ensures { result ≡ scope_byte self }
    {
        match self {
            Scope::Local => 0xf8,
            Scope::User => 0xf9,
            Scope::Resource => 0xfa,
            Scope::Device => 0xfb,
        }
    }

    /// The scope that a token's byte says.
    pub(crate) fn of_byte(byte: u8) -> Option<Scope>
        ensures { result ≡ scope_read byte }
    {
        match byte {
            0xf8 => Some(Scope::Local),
            0xf9 => Some(Scope::User),
            0xfa => Some(Scope::Resource),
            0xfb => Some(Scope::Device),
            _ => None,
        }
    }
}

/// The attribute of a token's byte and content.
pub(crate) fn read_attribute(alloc: Global, byte: u8, content: &[u8]) -> Result<Attribute, Refusal>
    ensures { Gives result (attribute_read byte content.now) }
{
    let scope = Scope::of_byte(byte).ok_or(Refusal::Malformed)?;
    let name = read_text(alloc, content)?;
    Ok(Attribute { scope, name })
}
