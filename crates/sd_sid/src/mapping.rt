//! Generic mappings.

ghost use Rattle.std.specs.Prelude.{◌≡◌, ◌<◌, ◌^◌, codes};
ghost use Rattle.sd_sid.specs.Mapping.{mapped, mapping_of, file_mapping, IsMapping};

use crate::mask::Mask;
use std::marker::Model;
use thiserror::Error;

/// What the four generic rights stand for, for one kind of object ([MS-DTYP] 2.4.3): four masks within
/// 0x001FFFFF.
#[derive(Clone, Copy, Debug, PartialEq, Eq, Hash)]
pub struct GenericMapping {
    read: Mask,
    write: Mask,
    execute: Mask,
    all: Mask,
}

impl Model for GenericMapping {
    ghost use Rattle.sd_sid.specs.Mapping.{MappingValue, IsMapping};

    ghost Value = { MappingValue };

    ghost view = { λ g. record { read = g.read; write = g.write; execute = g.execute; all = g.all } };

    ghost invariant = { λ g. IsMapping (record { read = g.read; write = g.write; execute = g.execute; all = g.all }) };

    ghost inverse = { λ v. record { read = v.read; write = v.write; execute = v.execute; all = v.all } };
}

/// A mask of a mapping isn't within 0x001FFFFF.
#[derive(Clone, Copy, Debug, PartialEq, Eq, Error)]
#[error("a mask of a generic mapping has a bit beyond 0x001fffff")]
pub struct BadMapping;

impl BadMapping {
    /// The error's number.
    pub fn number(self) -> u8
        ensures { result ≡ 1 }
    {
        1
    }

    /// The error's name.
    pub fn name(self) -> &'static str
        ensures { result.now ≡ codes "BadMapping" }
    {
        "BadMapping"
    }
}

/// The object's own rights and the standard ones, all that a mapping gives and an entry grants ([MS-DTYP] 2.4.3).
pub const OBJECT_RIGHTS: Mask = Mask(0x001F_FFFF);

impl GenericMapping {
    /// The mapping of these four masks. `BadMapping` unless each is within 0x001FFFFF.
    pub fn new(
        read: Mask,
        write: Mask,
        execute: Mask,
        all: Mask,
    ) -> Result<GenericMapping, BadMapping>
        ensures { result ≡ mapping_of read write execute all }
    {
        let widest = read
            .bits()
            .max(write.bits())
            .max(execute.bits())
            .max(all.bits());
        if widest > OBJECT_RIGHTS.bits() {
            return Err(BadMapping);
        }
        Ok(GenericMapping {
            read,
            write,
            execute,
            all,
        })
    }

    /// The mapping of files: FILE_GENERIC_READ, FILE_GENERIC_WRITE, FILE_GENERIC_EXECUTE, FILE_ALL_ACCESS.
    pub fn file() -> GenericMapping
        ensures { result ≡ file_mapping }
    {
        GenericMapping {
            read: Mask(0x0012_0089),
            write: Mask(0x0012_0116),
            execute: Mask(0x0012_00A0),
            all: Mask(0x001F_01FF),
        }
    }

    /// What GENERIC_ALL stands for.
    pub fn all(&self) -> Mask
        ensures all { result ≡ self.now.all }
        ensures known { IsMapping self.now }
    {
        self.all
    }

    /// The mask without its four generic bits, joined with the mapping's mask for each that was set
    /// ([MS-DTYP] 2.4.3).
    pub fn map(&self, mask: Mask) -> Mask
        ensures { result ≡ mapped self.now mask }
    {
        mask.common(Mask(0x0FFF_FFFF))
            .union(self.read.only_if(mask.holds(31)))
            .union(self.write.only_if(mask.holds(30)))
            .union(self.execute.only_if(mask.holds(29)))
            .union(self.all.only_if(mask.holds(28)))
    }
}
