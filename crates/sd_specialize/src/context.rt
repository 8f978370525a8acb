//! What a question says beside the descriptor.

ghost use Rattle.std.specs.Prelude.{◌≡◌, bit_and};
ghost use Rattle.sd_acl.specs.Ace.{all_named};
ghost use Rattle.std.specs.Str.{bytes_eq};
ghost use Rattle.sd_sid.specs.Sid.{same_sid};
ghost use Rattle.sd_specialize.specs.Context.{context_of};
ghost use Rattle.sd_specialize.specs.Entry.{allows_type, denies_type, is_asked, plain_for, principal_self, trustee};
ghost use Rattle.sd_specialize.specs.Entry.{without_part};
ghost use Rattle.sd_whole.specs.Plain.{plain_ace};

use crate::part::Part;
use bitflags::Flags;
use sd_acl::{Ace, AceFlags, AceKind};
use sd_evaluation::Facts;
use sd_sid::{Mask, Sid};
use sd_whole::Guid;

/// What the conditions of entries come to.
#[derive(Clone, Copy)]
pub enum Conditions<'a> {
    /// Each is evaluated for who asks, by these facts ([MS-DTYP] 2.5.3.1.5).
    Evaluated(&'a Facts<'a>),
    /// None is known to be true or false.
    Unknown,
}

/// One question about a whole descriptor: who asks, about which object types, and which object it is ([MS-DTYP]
/// 2.5.3.2).
#[derive(Drop)]
pub struct Context<'a> {
    /// What the conditions of entries come to for who asks.
    pub conditions: Conditions<'a>,
    /// The object types asked about, from the class to the property set and the property, or an extended right. Empty:
    /// the question is about the whole object.
    pub chain: &'a [Guid],
    /// The SID that PRINCIPAL SELF stands for: that of the object asked about, if it has one.
    pub principal_self: Option<Sid>,
}

impl Context<'_> {
    /// Whether there are two passes, in which a condition can come to different truths ([MS-DTYP] 2.5.2).
    pub(crate) fn is_restricted(&self) -> bool
        ensures { result ≡ (context_of self.now).is_restricted }
    {
        match self.conditions {
            Conditions::Evaluated(facts) => facts.token.is_restricted(),
            Conditions::Unknown => false,
        }
    }

    /// The SID that an entry for this SID is for ([MS-DTYP] 2.5.3.1.1).
    pub fn trustee(&self, sid: Sid) -> Sid
        ensures { result ≡ trustee (context_of self.now) sid }
    {
        *self.trustee_of(&sid)
    }

    /// The SID that an entry for this SID is for, where it is stored.
    #[inline(always)]
    fn trustee_of<'a>(&'a self, sid: &'a Sid) -> &'a Sid
        ensures { result.now ≡ trustee (context_of self.now) sid.now }
    {
        match &self.principal_self {
            Some(named) if is_principal_self(sid) => named,
            _ => sid,
        }
    }

    /// An allow or a deny for its trustee, with its named flags.
    #[inline(always)]
    pub(crate) fn part<'a>(
        &'a self,
        kind: AceKind,
        flags: AceFlags,
        mask: Mask,
        sid: &'a Sid,
    ) -> Part<'a>
        ensures { result ≡ plain_for (context_of self.now) kind flags.0 mask sid.now }
    {
        Part {
            kind,
            flags: named(flags),
            mask,
            sid: self.trustee_of(sid),
        }
    }

    /// An entry without a part in the question: it names no right.
    pub(crate) fn no_part<'a>(&'a self, flags: AceFlags, sid: &'a Sid) -> Part<'a>
        ensures { result ≡ without_part (context_of self.now) flags.0 sid.now }
    {
        self.part(AceKind::Allow, flags, Mask(0), sid)
    }

    /// An entry without a part in the question, with a SID of its own.
    pub(crate) fn without_part(&self, flags: AceFlags, sid: Sid) -> Ace
        ensures { result ≡ without_part (context_of self.now) flags.0 sid }
    {
        self.no_part(flags, &sid).ace()
    }

    /// Whether an allow for the object type is for what is asked about.
    pub(crate) fn allows_type(&self, object: Option<Guid>) -> bool
        ensures { result ≡ allows_type (context_of self.now).chain object }
    {
        match object {
            None => true,
            Some(object) => is_asked(self.chain, object),
        }
    }

    /// Whether a deny for the object type is for what is asked about.
    pub(crate) fn denies_type(&self, object: Option<Guid>) -> bool
        ensures { result ≡ denies_type (context_of self.now).chain object }
    {
        match object {
            None => true,
            Some(object) => self.chain.is_empty() || is_asked(self.chain, object),
        }
    }
}

/// An allow or a deny for the SID, with its named flags.
pub(crate) fn plain_ace(kind: AceKind, flags: AceFlags, mask: Mask, sid: Sid) -> Ace
    ensures { result ≡ plain_ace kind flags.0 mask sid }
{
    Ace {
        kind,
        flags: named(flags),
        mask,
        sid,
    }
}

/// The named flags of these.
#[inline(always)]
fn named(flags: AceFlags) -> AceFlags
    ensures { result.0 ≡ bit_and flags.0 all_named }
{
    AceFlags::from_bits_retain(flags.bits() & AceFlags::NAMED_BITS)
}

/// Whether the SID is PRINCIPAL SELF, S-1-5-10 ([MS-DTYP] 2.4.2.4).
fn is_principal_self(sid: &Sid) -> bool
    ensures { result ≡ same_sid sid.now principal_self }
{
    sid.authority() == 5 && sid.subs() == [10].as_slice()
}

/// Whether the object type is one of those asked about.
pub(crate) fn is_asked(chain: &[Guid], object: Guid) -> bool
    ensures { result ≡ is_asked chain.now object }
{
    chain.iter().any(|asked| same_guid(asked, &object))
}

pub(crate) fn same_guid(one: &Guid, other: &Guid) -> bool
    ensures { result ≡ bytes_eq one.now.bytes other.now.bytes }
{
    one.as_slice() == other.as_slice()
}
