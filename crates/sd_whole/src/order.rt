//! The canonical order of a DACL with entries of every type: [MS-DTYP] 2.4.5.

ghost use Rattle.std.specs.Prelude.{◌≡◌};
ghost use Rattle.sd_whole.specs.Order.{is_deny, rank};

use crate::ace::WholeAce;
use bitflags::Flags;
use sd_wire::has_bits;

/// The flag of an inherited entry ([MS-DTYP] 2.4.4.1, INHERITED_ACE).
const INHERITED: u16 = 0x10;

impl WholeAce {
    /// Where the entry stands in canonical order ([MS-DTYP] 2.4.5): 0 an explicit entry that denies, 1 another explicit
    /// one, 2 an inherited one.
    pub fn rank(&self) -> u8
        ensures { result ≡ rank self.now }
    {
        if has_bits(u16::from(self.flags().bits()), INHERITED) {
            2
        } else if self.is_deny() {
            0
        } else {
            1
        }
    }

    /// Whether the entry's type is one of those that deny ([MS-DTYP] 2.4.4.1, AceType).
    fn is_deny(&self) -> bool
        ensures { result ≡ is_deny self.now }
    {
        matches!(self.number(), 0x01 | 0x06 | 0x0a | 0x0c)
    }
}
