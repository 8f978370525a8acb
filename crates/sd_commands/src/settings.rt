//! What the options before a command about a descriptor say.

use crate::chain::Chain;
use crate::concern::Concern;
use crate::logon::Logon;
use sd_line::{ObjectKind, Spelling};
use sd_sid::{GenericMapping, Sid};
use sd_text::Aliases;
use std::alloc::Global;

/// How the bytes of a descriptor are spelled.
#[derive(Clone, Copy, PartialEq, Eq)]
pub enum ByteForm {
    /// In hexadecimal, two digits a byte.
    Hex,
    /// In hexadecimal, with signs between bytes.
    Loose,
    /// In base64 (RFC 4648, section 4).
    Base64,
}

/// What the options say.
#[derive(Clone, Copy)]
pub struct Settings {
    /// How masks and the rights of entries are printed, and what the argument MASK may be.
    pub spelling: Spelling,
    /// Which aliases of SIDs a text may have.
    pub aliases: Aliases,
    /// What the generic rights stand for ([MS-DTYP] 2.4.3).
    pub mapping: GenericMapping,
    /// The kind of object whose rights are named, if any.
    pub kind: Option<ObjectKind>,
    /// How the user logged on, if that is said.
    pub logon: Option<Logon>,
    /// Whether descriptors may have a SACL and entries of every type: `verdict` and `why` look at both, `compare`,
    /// `who` without `below` and `lint` with `object` at entries of every type, `compare` at the label too, and other
    /// questions at neither.
    pub whole: bool,
    /// Under `whole`, the object types that those are asked about.
    pub chain: Chain,
    /// Under `whole`, the SID for which PRINCIPAL SELF stands, if it is given.
    pub principal_self: Option<Sid>,
    /// Whether what the header has that SDDL has no word for is left out.
    pub without_bits: bool,
    /// Whether a descriptor without a list of entries is a fault.
    pub require_dacl: bool,
    /// Whether `who` also looks at what is made in a container.
    pub below: bool,
    /// Whether `compare` and `lint` look at descriptors of objects and of no containers: without OI and CI of entries.
    pub object: bool,
    /// Whether `lint` reports risks too.
    pub risks: bool,
    /// The SIDs that are of concern to risks beside those of every list.
    pub concern: Concern,
    /// How bytes are spelled.
    pub bytes: ByteForm,
    /// Whether a message that names a byte of a text shows the text there.
    pub points: bool,
}

/// What a command works with: where it allocates, and what the options say.
#[derive(Clone, Copy)]
pub(crate) struct CommandContext<'a> {
    pub(crate) alloc: Global,
    pub(crate) settings: &'a Settings,
}
