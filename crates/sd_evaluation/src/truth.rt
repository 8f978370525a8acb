//! Truth values.

ghost use Rattle.std.specs.Prelude.{◌≡◌};
ghost use Rattle.sd_evaluation.specs.Truth.{and_truth, applies, not_truth, or_truth, truth_if};

use sd_acl::AceKind;

/// What a condition is for who asks ([MS-DTYP] 2.5.3.1.5).
#[derive(Clone, Copy, Debug, PartialEq, Eq)]
pub enum Truth {
    True,
    False,
    /// An attribute that it needs is missing, or values of unlike types are compared.
    Unknown,
}

impl Truth {
    /// True or false, by a test.
    pub(crate) fn of(test: bool) -> Truth
        ensures { result ≡ truth_if test }
    {
        if test { Truth::True } else { Truth::False }
    }

    /// `!` ([MS-DTYP] 2.4.4.17.7).
    pub(crate) fn not(self) -> Truth
        ensures { result ≡ not_truth self }
    {
        match self {
            Truth::True => Truth::False,
            Truth::False => Truth::True,
            Truth::Unknown => Truth::Unknown,
        }
    }

    /// `&&` ([MS-DTYP] 2.4.4.17.7).
    pub(crate) fn and(self, other: Truth) -> Truth
        ensures { result ≡ and_truth self other }
    {
        match (self, other) {
            (Truth::False, _) | (_, Truth::False) => Truth::False,
            (Truth::True, Truth::True) => Truth::True,
            _ => Truth::Unknown,
        }
    }

    /// `||` ([MS-DTYP] 2.4.4.17.7).
    pub(crate) fn or(self, other: Truth) -> Truth
        ensures { result ≡ or_truth self other }
    {
        match (self, other) {
            (Truth::True, _) | (_, Truth::True) => Truth::True,
            (Truth::False, Truth::False) => Truth::False,
            _ => Truth::Unknown,
        }
    }
}

/// Whether an entry of the kind applies whose condition is this ([MS-DTYP] 2.5.3.1.5): an allow entry only if it is
/// true, a deny entry unless it is false.
pub fn applies(truth: Truth, kind: AceKind) -> bool
    ensures { result ≡ applies truth kind }
{
    match truth {
        Truth::True => true,
        Truth::False => false,
        Truth::Unknown => kind == AceKind::Deny,
    }
}
