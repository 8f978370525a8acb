//! Which library this is.

ghost use Rattle.std.specs.Prelude.{◌≡◌};

/// A version: another `major` may change what exists, another `minor` adds to it, another `patch` fixes it. While
/// `major` is 0 another `minor` may change what exists too.
#[repr(C)]
#[derive(Clone, Copy, Debug, PartialEq, Eq)]
pub struct Version {
    pub major: u32,
    pub minor: u32,
    pub patch: u32,
}

/// The version of the library, which a caller may compare with that of its header.
#[unsafe(no_mangle)]
pub extern "C" fn hudarin_version() -> Version
    ensures { (result.major ≡ 0) × (result.minor ≡ 3) × (result.patch ≡ 0) }
{
    Version {
        major: 0,
        minor: 3,
        patch: 0,
    }
}
