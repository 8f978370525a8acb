//! The rights field of an entry: [MS-DTYP] 2.5.1.1, ace-rights.

ghost use Rattle.std.specs.Prelude.{◌≡◌, ℕ, Ok, IfOk, IfErr, IsErrOf};
ghost use Rattle.sd_text.specs.Grammar.{Spells};
ghost use Rattle.sd_text.specs.Fault.{StandsIn};
ghost use Rattle.sd_text.specs.Rights.{mask_number, rights, mask_text};
ghost use Rattle.sd_text.specs.Finding.{Gives, find};

use crate::cursor::Cursor;
use crate::fault::{TextError, TextFault};
use crate::places::RIGHT_PLACES;
use sd_sid::Mask;

/// A mask is below this: it has 32 bits ([MS-DTYP] 2.4.3).
const MASK_LIMIT: u64 = 0x1_0000_0000;

/// The names of rights, the greatest mask first, and `KX`, which has the mask of `KR`.
pub(crate) static RIGHTS: [(&str, u32); 25] = [
    ("GR", 0x8000_0000),
    ("GW", 0x4000_0000),
    ("GX", 0x2000_0000),
    ("GA", 0x1000_0000),
    ("FA", 0x001F_01FF),
    ("FW", 0x0012_0116),
    ("FX", 0x0012_00A0),
    ("FR", 0x0012_0089),
    ("KA", 0x000F_003F),
    ("WO", 0x0008_0000),
    ("WD", 0x0004_0000),
    ("KR", 0x0002_0019),
    ("KW", 0x0002_0006),
    ("RC", 0x0002_0000),
    ("SD", 0x0001_0000),
    ("CR", 0x100),
    ("LO", 0x80),
    ("DT", 0x40),
    ("WP", 0x20),
    ("RP", 0x10),
    ("SW", 0x8),
    ("LC", 0x4),
    ("DC", 0x2),
    ("CC", 0x1),
    ("KX", 0x0002_0019),
];

/// Parses a mask, as in the rights field of an entry ([MS-DTYP] 2.5.1.1, ace-rights). Allocates nothing: an error is
/// the text's first fault from the left, with its offset in bytes.
pub fn read_mask(text: &str) -> Result<Mask, TextError>
    ensures value { IfOk result (λ mask. Spells mask_text text.now mask) }
    ensures fault { IfErr result (λ e. StandsIn mask_text text.now e) }
    ensures spelled { (mask : ℕ) → Spells mask_text text.now mask → result ≡ Ok mask }
    ensures no_memory { ¬ IsErrOf result TextError.Memory }
{
    let mut cursor = Cursor::new(text);
    match cursor.mask_text() {
        Ok(mask) => Ok(mask),
        Err(fault) => Err(TextError::Fault {
            fault,
            place: cursor.place(text),
        }),
    }
}

impl Cursor<'_> {
    fn mask_text(&mut self) -> Result<Mask, TextFault>
        ensures { Gives (λ mask. mask) result self.new.rest.now (find mask_text self.old.rest.now) }
    {
        let mask = self.rights()?;
        self.end()?;
        Ok(mask)
    }

    /// A number, or a run of names.
    #[tactic(auto, unfolding(crate::specs::Rights::rights, crate::specs::Rights::names_from_greatest))]
    pub fn rights(&mut self) -> Result<Mask, TextFault>
        ensures { Gives (λ mask. mask) result self.new.rest.now (find rights self.old.rest.now) }
    {
        if self.begins_digit(10) {
            self.mask_number()
        } else {
            Ok(Mask(self.bits_of(&RIGHTS, &RIGHT_PLACES)))
        }
    }

    /// A number: hexadecimal after `0x`, octal after `0`.
    #[tactic(auto, unfolding(crate::specs::Rights::mask_number))]
    pub(crate) fn mask_number(&mut self) -> Result<Mask, TextFault>
        ensures { Gives (λ mask. mask) result self.new.rest.now (find mask_number self.old.rest.now) }
    {
        let bits = if self.begins(b"0X") {
            self.number(2, 16, MASK_LIMIT)?
        } else if self.begins(b"0") {
            self.number(0, 8, MASK_LIMIT)?
        } else {
            self.number(0, 10, MASK_LIMIT)?
        };
        Ok(Mask(bits as u32))
    }
}
