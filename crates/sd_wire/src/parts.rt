//! A descriptor in parts, before its entries are parsed: for callers that parse them one at a time, without an
//! allocation.

ghost use Rattle.std.specs.Prelude.{◌≡◌, ◌<◌, ◌^◌, Err, IfErr, IfOk};
ghost use Rattle.sd_wire.specs.Parts.{ArePartsOf, AreWithin, dacl_at};
ghost use Rattle.sd_wire.specs.Reading.{dacl_read, descriptor_read};

use crate::fault::WireFault;
use crate::header::{
    DACL_PLACE, DACL_PRESENT, GROUP_PLACE, OWNER_PLACE, has_bits, leads_outside, read_control,
};
use crate::list::find_entries;
use crate::number::read_u32;
use crate::trustee::read_trustee;
use sd_acl::DaclOf;
use sd_sid::SidRef;

/// What a check requires of a descriptor: its owner, and the position of its DACL.
#[derive(Drop)]
pub struct Parts<'a> {
    pub owner: Option<SidRef<'a>>,
    pub dacl: DaclPlace,
}

/// The position of a DACL.
pub type DaclPlace = DaclOf<EntryPlaces>;

/// The position of a list's entries: how many, the offset of the first, and the end, which none passes. `read_entry`
/// parses each.
#[derive(Clone, Copy)]
pub struct EntryPlaces {
    pub place: usize,
    pub end: usize,
    pub count: usize,
}

/// The parts of the descriptor in the bytes, or the first test that they fail ([MS-DTYP] 2.4.6): the tests of
/// `read_descriptor` before the first entry's, in the same order. Allocates nothing.
#[tactic(auto, unfolding(crate::specs::Reading::descriptor_read))]
pub fn read_parts(bytes: &[u8]) -> Result<Parts<'_>, WireFault>
    ensures ok { IfOk result (λ parts. ArePartsOf bytes.now parts) }
    ensures err { IfErr result (λ fault. descriptor_read bytes.now ≡ Err fault) }
{
    let control = read_control(bytes)?;
    let owner = read_trustee(bytes, read_u32(bytes, OWNER_PLACE) as usize)?;
    let _group = read_trustee(bytes, read_u32(bytes, GROUP_PLACE) as usize)?;
    if !has_bits(control, DACL_PRESENT) {
        return Ok(Parts {
            owner,
            dacl: DaclPlace::Absent,
        });
    }
    let dacl = find_dacl(bytes, read_u32(bytes, DACL_PLACE) as usize)?;
    Ok(Parts { owner, dacl })
}

/// The position of the DACL at its offset.
#[tactic(auto, unfolding(crate::specs::Reading::dacl_read))]
fn find_dacl(bytes: &[u8], offset: usize) -> Result<DaclPlace, WireFault>
    requires { offset < 2 ^ 32 }
    ensures ok { IfOk result (λ dacl. (dacl_read bytes.now offset ≡ dacl_at bytes.now dacl)
        × AreWithin bytes.now dacl) }
    ensures err { IfErr result (λ fault. dacl_read bytes.now offset ≡ Err fault) }
{
    if offset == 0 {
        return Ok(DaclPlace::Null);
    }
    if leads_outside(bytes, offset) {
        return Err(WireFault::BadOffset);
    }
    let entries = find_entries(bytes, offset)?;
    Ok(DaclPlace::List(entries))
}
