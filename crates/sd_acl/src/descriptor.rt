//! Security descriptors.

ghost use Rattle.std.specs.Prelude.{not, ◌&&◌, IsTrue};
ghost use Rattle.sd_acl.specs.Dacl.{IsAbsent};

use crate::list::AceList;
use sd_sid::Sid;

/// The discretionary list of a descriptor ([MS-DTYP] 2.4.6, control bit DP and OffsetDacl), wherever its entries are.
#[derive(Debug, Clone, Copy, Drop)]
pub enum DaclOf<Entries> {
    /// No DACL: each of the object's own rights and the standard ones is granted.
    Absent,
    /// A null DACL: each of the object's own rights and the standard ones is granted.
    Null,
    /// The entries grant; an empty list grants nothing.
    List(Entries),
}

/// A DACL with its entries.
pub type Dacl = DaclOf<AceList>;

/// A security descriptor without a SACL ([MS-DTYP] 2.4.6). The three flags speak of the DACL: they are false
/// where there is none.
#[derive(Debug, Drop)]
pub struct Descriptor {
    pub owner: Option<Sid>,
    pub group: Option<Sid>,
    pub dacl: Dacl,
    /// Control bit PD: nothing is inherited.
    pub protected: bool,
    /// Control bit DC: the list is to be inherited automatically.
    pub auto_req: bool,
    /// Control bit DI: the list was inherited automatically.
    pub auto_inherited: bool,
    ghost without_a_dacl: { IsAbsent dacl → IsTrue (not protected && not auto_req && not auto_inherited) },
}
