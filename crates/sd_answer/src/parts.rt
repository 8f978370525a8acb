//! A descriptor and a DACL, as far as a check looks at them.
ghost use Rattle.std.specs.Prelude.{◌≡◌};
ghost use Rattle.sd_acl.specs.Descriptor.{descriptor_of};
ghost use Rattle.sd_analysis.specs.Sufficient.{parts_of};
ghost use Rattle.sd_answer.specs.Parts.{entries_in, parts_in};
ghost use Rattle.sd_check.specs.Check.{dacl_entries, entries_of};

use sd_acl::{Ace, Dacl, Descriptor};
use sd_analysis::DescriptorRef;
use sd_check::DaclRef;

/// A descriptor, as far as a check looks at it ([MS-DTYP] 2.5.3.2): its owner and its DACL.
pub fn descriptor_ref(descriptor: &Descriptor) -> DescriptorRef<'_>
    ensures { parts_of result ≡ parts_in (descriptor_of descriptor.now) }
{
    DescriptorRef {
        owner: descriptor.owner,
        dacl: dacl_ref(&descriptor.dacl),
    }
}

/// The DACL ([MS-DTYP] 2.4.5), borrowed for an analysis.
pub fn dacl_ref(dacl: &Dacl) -> DaclRef<'_>
    ensures { entries_of result ≡ dacl_entries dacl.now }
{
    match dacl {
        Dacl::Absent => DaclRef::Absent,
        Dacl::Null => DaclRef::Null,
        Dacl::List(list) => DaclRef::List(list.entries()),
    }
}

/// The entries of the DACL ([MS-DTYP] 2.4.5): none where there is no list.
pub fn entries_in(dacl: &Dacl) -> &[Ace]
    ensures { result.now ≡ entries_in dacl.now }
{
    match dacl {
        Dacl::Absent => &[],
        Dacl::Null => &[],
        Dacl::List(list) => list.entries(),
    }
}
