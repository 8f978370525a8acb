//! The flags of an entry.

ghost use Rattle.std.specs.Prelude.{⊤, ◌≡◌};
ghost use Rattle.sd_acl.specs.Ace.{named_flags, passes_on};

use bitflags::{Flag, Flags, bitflag_items};

/// How an entry is inherited, and where it came from ([MS-DTYP] 2.4.4.1, AceFlags). A bit outside the seven,
/// such as `from_bits_retain` can set, is kept and never read, printed or written.
#[derive(Clone, Copy, Debug, PartialEq, Eq, Hash)]
pub struct AceFlags(u8);

bitflag_items! {
    impl AceFlags: u8 {
        /// Objects inherit the entry.
        const OI = 0x01;
        /// Containers inherit the entry.
        const CI = 0x02;
        /// What inherits the entry doesn't pass it on.
        const NP = 0x04;
        /// The entry is there to be inherited only, and has no part in a check.
        const IO = 0x08;
        /// The entry was inherited.
        const ID = 0x10;
        /// Audits successes; kept, and without effect here.
        const SA = 0x40;
        /// Audits failures; kept, and without effect here.
        const FA = 0x80;
    }
}

impl AceFlags {
    /// The letters and the bits of each flag, in the order of the bits.
    pub const NAMED: [(&'static str, u32); 7] = [
        ("OI", AceFlags::OI.0 as u32),
        ("CI", AceFlags::CI.0 as u32),
        ("NP", AceFlags::NP.0 as u32),
        ("IO", AceFlags::IO.0 as u32),
        ("ID", AceFlags::ID.0 as u32),
        ("SA", AceFlags::SA.0 as u32),
        ("FA", AceFlags::FA.0 as u32),
    ];

    /// The bits of all seven.
    pub const NAMED_BITS: u8 = AceFlags::OI.0
        | AceFlags::CI.0
        | AceFlags::NP.0
        | AceFlags::IO.0
        | AceFlags::ID.0
        | AceFlags::SA.0
        | AceFlags::FA.0;

    /// Whether objects or containers inherit an entry with these flags ([MS-DTYP] 2.4.4.1).
    pub fn pass_on(self) -> bool
        ensures { result ≡ passes_on self.0 }
    {
        let to_objects = self.contains(AceFlags::OI);
        let to_containers = self.contains(AceFlags::CI);
        to_objects || to_containers
    }
}

impl Flags for AceFlags {
    type Bits = u8;

    ghost exact = { ⊤ };

    ghost table = { named_flags };

    ghost set_of = { λ f. f.0 };

    fn flags<'a>() -> &'a [Flag<AceFlags>] {
        AceFlags::FLAGS
    }

    fn bits(&self) -> u8 {
        self.0
    }

    fn from_bits_retain(bits: u8) -> AceFlags {
        AceFlags(bits)
    }
}
