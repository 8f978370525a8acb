//! Why a check isn't made.

ghost use Rattle.std.specs.Prelude.{◌≡◌};
ghost use Rattle.sd_c.specs.declared.stop.Stop.TheVariants as stops;

use sd_create::CreateFault;
use sd_sid::SidError;
use sd_specialize::SpecializeFault;
use sd_types::TreeFault;
use sd_wire::WireFault;
use std::alloc::{AllocError, AllocFailed};

/// The first invalid argument in the order of the call, and why.
#[derive(Clone, Copy)]
pub enum NotRead {
    /// The descriptor's bytes hold none.
    Descriptor(WireFault),
    /// The user's bytes don't start with a SID.
    User(SidError),
    /// There is no SID where the group with this index must be.
    Group { fault: SidError, at: u64 },
    /// Bytes follow as many groups as there are states.
    BehindGroups { at: u64 },
    /// The state of the group with this index is invalid.
    State { at: u64 },
    /// There is no SID where the restricting SID with this index must be.
    Restricting { fault: SidError, at: u64 },
    /// A bit that is no privilege.
    PrivilegeBits,
    /// A mask of the mapping has a bit beyond 0x001FFFFF.
    MappingBits,
    /// The descriptor's handle keeps no descriptor.
    DescriptorHandle,
    /// The token's handle keeps no token.
    TokenHandle,
    /// The handle of a comparison's new descriptor keeps none.
    NewHandle,
    /// The domain's bytes don't start with a SID.
    DomainSid(SidError),
    /// The SID at their front is no domain's.
    NoDomain,
    /// The words aren't UTF-8 from this byte on.
    WordsUtf8 { at: u64 },
    /// The last word has no zero byte after it.
    Unended,
    /// The word with this index says nothing of a client.
    NoWord { at: u64 },
    /// The client's handle keeps no client, or is in use where one is to be kept.
    ClientHandle,
    /// The object types are more than five, or not of 16 bytes each.
    Types,
    /// A node can't stand in a tree of object types where it does.
    Tree(TreeFault),
    /// The bytes for PRINCIPAL SELF don't start with a SID.
    PrincipalSelf(SidError),
    /// The descriptor's DACL can't be decided for the question.
    Undecided(SpecializeFault),
    /// An entry of the descriptor's SACL may deny what the verdict grants.
    MayBeDenied,
    /// The bytes of a file's or a new object's parent hold no descriptor.
    Parent(WireFault),
    /// The bytes of what a creator gave hold none.
    Creator(WireFault),
    /// The bytes of what its token has by default hold none.
    Defaults(WireFault),
    /// They have no owner, or no group.
    NoDefault,
    /// There is no SID where the SID of a possible owner with this index must be.
    Owner { fault: SidError, at: u64 },
    /// The object gets no descriptor.
    NotCreated(CreateFault),
}

/// Why a check stops: an invalid argument, or out of memory.
#[derive(Clone, Copy)]
pub enum Stop {
    NotRead(NotRead),
    Memory,
}

impl From<NotRead> for Stop {
    ghost from_gives = { λ why stop. stop ≡ stops.NotRead why };

    fn from(why: NotRead) -> Stop {
        Stop::NotRead(why)
    }
}

impl<T: Drop> From<AllocFailed<T>> for Stop {
    ghost from_gives = { λ _ stop. stop ≡ stops.Memory };

    fn from(_: AllocFailed<T>) -> Stop {
        Stop::Memory
    }
}

impl From<AllocError> for Stop {
    ghost from_gives = { λ _ stop. stop ≡ stops.Memory };

    fn from(_: AllocError) -> Stop {
        Stop::Memory
    }
}
