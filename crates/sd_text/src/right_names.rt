//! The names for whole masks in printed entries: [MS-DTYP] 2.5.1.1, ace-rights.

ghost use Rattle.std.specs.Prelude.{◌≡◌, map, option_map};
ghost use Rattle.sd_text.specs.RightNames.{has, name_in, printed_right, printed_rights};

/// The names that rights have in a printed entry ([MS-DTYP] 2.5.1.1, ace-rights).
#[derive(Clone, Copy, Debug, PartialEq, Eq)]
pub enum RightNames {
    /// The names of files, of registry keys and of all objects, as in the canonical text.
    All,
    /// The names of files and of all objects.
    Files,
    /// The names of registry keys and of all objects.
    Keys,
    /// The names of all objects.
    Common,
}

/// A name, its mask, and the objects whose right it is.
type PrintedRight = (&'static str, u32, RightNames);

static PRINTED_RIGHTS: [PrintedRight; 15] = [
    ("FA", 0x001F_01FF, RightNames::Files),
    ("FR", 0x0012_0089, RightNames::Files),
    ("FW", 0x0012_0116, RightNames::Files),
    ("FX", 0x0012_00A0, RightNames::Files),
    ("KA", 0x000F_003F, RightNames::Keys),
    ("KR", 0x0002_0019, RightNames::Keys),
    ("KW", 0x0002_0006, RightNames::Keys),
    ("GA", 0x1000_0000, RightNames::Common),
    ("GR", 0x8000_0000, RightNames::Common),
    ("GW", 0x4000_0000, RightNames::Common),
    ("GX", 0x2000_0000, RightNames::Common),
    ("SD", 0x0001_0000, RightNames::Common),
    ("RC", 0x0002_0000, RightNames::Common),
    ("WD", 0x0004_0000, RightNames::Common),
    ("WO", 0x0008_0000, RightNames::Common),
];

impl RightNames {
    /// The name for exactly these bits.
    #[tactic(auto, using(crate::proofs::Tables::name_at), unfolding(crate::specs::RightNames::name_in))]
    pub(crate) fn name_of(self, bits: u32) -> Option<&'static str>
        ensures { option_map (λ letters. letters.now) result ≡ name_in self printed_rights bits }
    {
        for (letters, mask, objects) in printed_rights() {
            if self.has(*objects) && *mask == bits {
                return Some(letters);
            }
        }
        None
    }

    /// Whether rights of these objects are named.
    fn has(self, objects: RightNames) -> bool
        ensures { result ≡ has self objects }
    {
        matches!(
            (self, objects),
            (RightNames::All, _)
                | (_, RightNames::Common)
                | (RightNames::Files, RightNames::Files)
                | (RightNames::Keys, RightNames::Keys)
        )
    }
}

#[tactic(auto, unfolding(crate::specs::RightNames::printed_rights))]
fn printed_rights() -> &'static [PrintedRight]
    ensures { map printed_right result.now ≡ printed_rights }
{
    &PRINTED_RIGHTS
}
