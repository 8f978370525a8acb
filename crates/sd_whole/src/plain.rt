//! The plain part of a whole descriptor: its owner, its group, and a DACL of allows and denies ([MS-DTYP] 2.4.4.2 and
//! 2.4.4.4).

ghost use Rattle.std.specs.Prelude.{◌≡◌, None, Ok, IfOk, IfErr, IsTrue};
ghost use Rattle.std.specs.List.{filter_map, position};
ghost use Rattle.sd_acl.specs.Descriptor.{descriptor_of};
ghost use Rattle.sd_whole.specs.Plain.{IsUnlisted, dacl_bit, first_odd, has_sacl, is_odd, odd_kind, odd_name};
ghost use Rattle.sd_whole.specs.Plain.{odd_number, plain_ace, plain_acl, plain_as, plain_form, plain_list};
ghost use Rattle.sd_whole.specs.Plain.{plain_part, with_dacl};
ghost use Rattle.sd_whole.specs.Writing.{is_without};
ghost use Rattle.sd_acl.specs.Dacl.{IsAbsent};
ghost use Rattle.sd_whole.specs.declared.plain.PlainError.TheVariants.{Memory};

use crate::ace::{TypedAce, WholeAce};
use crate::acl::WholeAcl;
use crate::descriptor::WholeDescriptor;
use crate::kind::WholeKind;
use crate::list::WholeList;
use bitflags::Flags;
use sd_acl::{Ace, AceFlags, AceKind, AceList, Dacl, Descriptor};
use sd_sid::{Mask, Sid};
use sd_wire::has_bits;
use std::alloc::{AllocError, Global};

/// Why an entry of a DACL is no allow and no deny of a plain list ([MS-DTYP] 2.4.4.1, AceType).
#[derive(Clone, Copy, Debug, PartialEq, Eq)]
pub enum OddKind {
    /// It says for which types of objects it is.
    ObjectAce,
    /// A condition says whether it applies.
    ConditionalAce,
    /// Its type is of SACLs.
    SystemAce,
    /// Its type has no layout, or its body doesn't have the layout of its type.
    OpaqueAce,
}

impl OddKind {
    /// The number, from 1 on, by which programs name it.
    pub fn number(self) -> u8
        ensures { result ≡ odd_number self }
    {
        match self {
            OddKind::ObjectAce => 1,
            OddKind::ConditionalAce => 2,
            OddKind::SystemAce => 3,
            OddKind::OpaqueAce => 4,
        }
    }

    /// The name, by which programs print it.
    pub fn name(self) -> &'static str
        ensures { result.now ≡ odd_name self }
    {
        match self {
            OddKind::ObjectAce => "ObjectAce",
            OddKind::ConditionalAce => "ConditionalAce",
            OddKind::SystemAce => "SystemAce",
            OddKind::OpaqueAce => "OpaqueAce",
        }
    }
}

/// The first entry of a DACL that is no allow and no deny of a plain list.
#[derive(Clone, Copy, Debug, PartialEq, Eq)]
pub struct OddEntry {
    /// The entry's number in the list, from 1 on.
    pub entry: usize,
    pub kind: OddKind,
}

/// Why a whole descriptor has no plain part.
#[derive(Clone, Copy, Debug, PartialEq, Eq)]
pub enum PlainError {
    Odd(OddEntry),
    /// Memory was refused.
    Memory,
}

impl From<AllocError> for PlainError {
    ghost from_gives = { λ _ e. e ≡ Memory };

    fn from(_error: AllocError) -> PlainError {
        PlainError::Memory
    }
}

/// The plain part of a whole descriptor, and whether a SACL was left out.
#[derive(Drop)]
pub struct PlainPart {
    pub descriptor: Descriptor,
    pub left_out: bool,
}

impl WholeAce {
    /// The allow or the deny that the entry is, with its named flags and without the bytes after its SID, if it is one.
    pub fn plain_form(&self) -> Option<Ace>
        ensures { result ≡ plain_form self.now }
    {
        match self {
            WholeAce::Plain(ace) => Some(plain_ace(ace.kind, ace.flags, ace.mask, ace.sid)),
            WholeAce::Typed(ace) => plain_as(ace.kind.plain(), ace),
            WholeAce::Opaque(_) => None,
        }
    }

    /// Whether the entry is no allow and no deny of a plain list.
    fn is_odd(&self) -> bool
        ensures { result ≡ is_odd self.now }
    {
        self.plain_form().is_none()
    }

    /// What the entry is, if it is no allow and no deny of a plain list.
    fn odd_kind(&self) -> OddKind
        ensures { result ≡ odd_kind self.now }
    {
        match self {
            WholeAce::Opaque(_) => OddKind::OpaqueAce,
            WholeAce::Plain(_) => OddKind::SystemAce,
            WholeAce::Typed(ace) => match ace.kind {
                WholeKind::ObjectAllow | WholeKind::ObjectDeny => OddKind::ObjectAce,
                WholeKind::CallbackAllow
                | WholeKind::CallbackDeny
                | WholeKind::CallbackObjectAllow
                | WholeKind::CallbackObjectDeny => OddKind::ConditionalAce,
                _ => OddKind::SystemAce,
            },
        }
    }
}

/// An entry with its named flags.
fn plain_ace(kind: AceKind, flags: AceFlags, mask: Mask, sid: Sid) -> Ace
    ensures { result ≡ plain_ace kind flags.0 mask sid }
{
    let flags = AceFlags::from_bits_retain(flags.bits() & AceFlags::NAMED_BITS);
    Ace {
        kind,
        flags,
        mask,
        sid,
    }
}

fn plain_as(kind: Option<AceKind>, ace: &TypedAce) -> Option<Ace>
    ensures { result ≡ plain_as kind ace.now }
{
    let kind = kind?;
    Some(plain_ace(kind, ace.flags, ace.mask, ace.sid))
}

/// The first of the entries that is no allow and no deny of a plain list.
fn first_odd(entries: &[WholeAce]) -> Option<OddEntry>
    ensures { result ≡ first_odd entries.now }
{
    let place = odd_place(entries)?;
    let entry = entries.get(place)?;
    Some(OddEntry {
        entry: place + 1,
        kind: entry.odd_kind(),
    })
}

fn odd_place(entries: &[WholeAce]) -> Option<usize>
    ensures { result ≡ position is_odd entries.now }
{
    entries.iter().position(WholeAce::is_odd)
}

impl WholeDescriptor {
    /// The plain part: owner, group, the DACL's control bits, and its entries, which have to be allows and denies; they
    /// lose flags without a name, and bytes after their SIDs. What else the header has, and the SACL, is left out. An
    /// error names the first entry that is neither, or is out of memory, which comes only where all have a plain form.
    #[tactic(auto, using(crate::proofs::PlainForms::unlisted_mapped))]
    pub fn plain_part(&self, alloc: Global) -> Result<PlainPart, PlainError>
        ensures part { IfOk result (λ part. plain_part self.now ≡ Ok (descriptor_of part.descriptor)) }
        ensures left_out { IfOk result (λ part. part.left_out ≡ has_sacl self.now) }
        ensures odd { IfErr result (IsUnlisted (plain_part self.now)) }
    {
        match plain_acl(alloc, &self.dacl) {
            Ok(dacl) => Ok(PlainPart {
                descriptor: self.with_dacl(dacl),
                left_out: !matches!(self.sacl, WholeAcl::Absent),
            }),
            Err(error) => Err(error),
        }
    }

    /// Owner, group and this DACL.
    fn with_dacl(&self, dacl: Dacl) -> Descriptor
        requires { IsAbsent dacl → IsTrue (is_without self.now.dacl) }
        ensures { descriptor_of result ≡ with_dacl self.now dacl }
    {
        Descriptor {
            owner: self.owner,
            group: self.group,
            dacl,
            protected: self.dacl_bit(0x1000),
            auto_req: self.dacl_bit(0x0100),
            auto_inherited: self.dacl_bit(0x0400),
        }
    }

    /// Whether a control bit that speaks of the DACL is set, and there is one.
    fn dacl_bit(&self, bit: u16) -> bool
        ensures { result ≡ dacl_bit self.now bit }
    {
        has_bits(self.control, bit) && !matches!(self.dacl, WholeAcl::Absent)
    }
}

#[tactic(auto, using(crate::proofs::PlainForms::unlisted_mapped))]
fn plain_acl(alloc: Global, acl: &WholeAcl) -> Result<Dacl, PlainError>
    ensures dacl { IfOk result (λ dacl. plain_acl acl.now ≡ Ok dacl) }
    ensures odd { IfErr result (IsUnlisted (plain_acl acl.now)) }
{
    match acl {
        WholeAcl::Absent => Ok(Dacl::Absent),
        WholeAcl::Null => Ok(Dacl::Null),
        WholeAcl::List(list) => match plain_list(alloc, list) {
            Ok(entries) => Ok(Dacl::List(entries)),
            Err(error) => Err(error),
        },
    }
}

/// The plain forms of the entries of a list, which all have one, or the first that has none.
fn plain_list(alloc: Global, list: &WholeList) -> Result<AceList, PlainError>
    ensures list { IfOk result (λ plain. plain_list list.now.entries ≡ Ok plain) }
    ensures odd { IfErr result (IsUnlisted (plain_list list.now.entries)) }
{
    match first_odd(list.entries()) {
        Some(odd) => Err(PlainError::Odd(odd)),
        None => all_plain(alloc, list),
    }
}

/// The plain forms of the entries of a list, which all have one.
#[tactic(auto, using(crate::proofs::PlainForms::forms_fit))]
fn all_plain(alloc: Global, list: &WholeList) -> Result<AceList, PlainError>
    requires { first_odd list.now.entries ≡ None }
    ensures list { IfOk result (λ plain. plain_list list.now.entries ≡ Ok plain) }
    ensures odd { IfErr result (IsUnlisted (plain_list list.now.entries)) }
{
    match plain_forms(alloc, list.entries()) {
        // No entry has a larger plain form, so they fit a list.
        Ok(plain) => Ok(AceList::new(plain).unwrap()),
        Err(AllocError) => Err(PlainError::Memory),
    }
}

/// The plain forms that entries have.
fn plain_forms(alloc: Global, entries: &[WholeAce]) -> Result<Vec<Ace>, AllocError>
    ensures { IfOk result (λ forms. forms.items ≡ filter_map plain_form entries.now) }
{
    entries
        .iter()
        .filter_map(WholeAce::plain_form)
        .collect(alloc)
}
