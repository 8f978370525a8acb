//! What an access check answers.

use sd_sid::Mask;

/// The answer of an access check ([MS-DTYP] 2.5.3.2).
#[derive(Clone, Copy, Debug, PartialEq, Eq)]
pub enum Verdict {
    /// What was asked for is granted; under MAXIMUM_ALLOWED this is all that is granted.
    Granted(Mask),
    /// Of what was asked for, just these bits aren't granted.
    Denied { missing: Mask },
    /// Just these bits of the request are reserved.
    Reserved(Mask),
    /// Nothing was asked for.
    EmptyRequest,
}
