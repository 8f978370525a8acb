//! How lists and owners are taken from the parent.

ghost use Rattle.std.specs.Prelude.{⊤};
ghost use Rattle.sd_create.specs.Create.{flag_names};

use bitflags::{Flag, Flags, bitflag_items};

/// AutoInheritFlags of [MS-DTYP] 2.5.3.4.1, by the bits that Windows gives them. Other bits are without effect, as
/// AVOID_PRIVILEGE_CHECK: no privilege is looked at but SeRestorePrivilege.
#[derive(Clone, Copy, Debug, PartialEq, Eq, Hash)]
pub struct AutoInherit(u32);

bitflag_items! {
    impl AutoInherit: u32 {
        /// What the parent's DACL passes on follows the creator's own entries.
        const DACL_AUTO_INHERIT = 0x01;
        /// What the parent's SACL passes on follows the creator's own entries.
        const SACL_AUTO_INHERIT = 0x02;
        /// A list that the creator gave counts only where the parent's list passes on nothing.
        const DEFAULT_DESCRIPTOR_FOR_OBJECT = 0x04;
        /// Any SID may be the owner.
        const AVOID_OWNER_CHECK = 0x10;
        /// Where the creator gave no owner, it is the parent's.
        const DEFAULT_OWNER_FROM_PARENT = 0x20;
        /// Where the creator gave no group, it is the parent's.
        const DEFAULT_GROUP_FROM_PARENT = 0x40;
    }
}

impl Flags for AutoInherit {
    type Bits = u32;

    ghost exact = { ⊤ };

    ghost table = { flag_names };

    ghost set_of = { λ f. f.0 };

    fn flags<'a>() -> &'a [Flag<AutoInherit>] {
        AutoInherit::FLAGS
    }

    fn bits(&self) -> u32 {
        self.0
    }

    fn from_bits_retain(bits: u32) -> AutoInherit {
        AutoInherit(bits)
    }
}
