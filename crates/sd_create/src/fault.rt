//! Why an object gets no descriptor.

ghost use Rattle.std.specs.Prelude.{◌≡◌};
ghost use Rattle.sd_create.specs.Create.{fault_name, fault_number};
ghost use Rattle.sd_create.specs.declared.fault.CreateError.TheVariants as errors;

use std::alloc::{AllocError, AllocFailed};

/// Why an object gets no descriptor: the first of these.
#[derive(Clone, Copy, Debug, PartialEq, Eq)]
pub enum CreateFault {
    /// The creator gave an owner that its token may not set.
    Owner,
    /// The owner is to be the parent's, and there is none.
    NoOwner,
    /// The group is to be the parent's, and there is none.
    NoGroup,
    /// The SACL or the DACL takes more than 65,535 bytes ([MS-DTYP] 2.4.5, AclSize).
    TooLarge,
}

impl CreateFault {
    /// The number, by which programs name it.
    pub fn number(self) -> u8
        ensures { result ≡ fault_number self }
    {
        match self {
            CreateFault::Owner => 1,
            CreateFault::NoOwner => 2,
            CreateFault::NoGroup => 3,
            CreateFault::TooLarge => 4,
        }
    }

    /// The name, by which programs print it.
    pub fn name(self) -> &'static str
        ensures { result.now ≡ fault_name self }
    {
        match self {
            CreateFault::Owner => "Owner",
            CreateFault::NoOwner => "NoOwner",
            CreateFault::NoGroup => "NoGroup",
            CreateFault::TooLarge => "TooLarge",
        }
    }
}

/// Why no descriptor is made.
#[derive(Clone, Copy, Debug, PartialEq, Eq)]
pub enum CreateError {
    /// The object gets none.
    Fault(CreateFault),
    /// Memory was refused.
    Memory,
}

impl From<CreateFault> for CreateError {
    ghost from_gives = { λ fault e. e ≡ errors.Fault fault };

    fn from(fault: CreateFault) -> CreateError {
        CreateError::Fault(fault)
    }
}

impl From<AllocError> for CreateError {
    ghost from_gives = { λ _ e. e ≡ errors.Memory };

    fn from(_error: AllocError) -> CreateError {
        CreateError::Memory
    }
}

impl<T: Drop> From<AllocFailed<T>> for CreateError {
    ghost from_gives = { λ _ e. e ≡ errors.Memory };

    fn from(_error: AllocFailed<T>) -> CreateError {
        CreateError::Memory
    }
}
