//! The version of the program.
ghost use Rattle.std.specs.Prelude.{◌≡◌, IfOk, string_bytes};
ghost use Rattle.sd_arguments.specs.Version.{version_line};

use std::alloc::{AllocError, Global};

/// The version of the program.
pub(crate) const VERSION: &str = "0.3.0";

/// A line of the program's name and version. The only error is out of memory.
pub fn version_text(alloc: Global) -> Result<String, AllocError>
    ensures { IfOk result (λ text. string_bytes text ≡ version_line) }
{
    format!(in alloc; "sdstore {VERSION}\n")
}
