//! Tokens that tell two descriptors apart, and the law that few SIDs make one.

ghost use Rattle.std.specs.Prelude.{◌≡◌, true};
ghost use Rattle.sd_analysis.specs.Report.{is_rest, rest_of};
ghost use Rattle.sd_analysis.specs.Sufficient.{TwoSidsPerPassSuffice, WitnessHasBase};

use sd_check::Pass;
use sd_sid::Sid;

/// The SIDs that a witness has for one pass of the check, beside the base: two at most.
#[derive(Clone, Copy, Debug, PartialEq, Eq)]
pub struct PassSids {
    /// In the first pass the user; in the second a restricting SID.
    pub allowed: Sid,
    /// In the first pass a group for denies alone; in the second one more restricting SID.
    pub denied: Option<Sid>,
}

/// A token without privileges that has a base and, for each pass, two SIDs at most.
#[derive(Clone, Copy, Debug, PartialEq, Eq)]
pub struct Witness {
    pub first: PassSids,
    /// None where nothing restricts it.
    pub second: Option<PassSids>,
}

/// What a pass is to show of its SIDs: that the new descriptor grants the bit, by an entry or as the owner's; and that
/// the old one grants it by no entry, or not as the owner's, or neither.
#[derive(Clone, Copy)]
pub(crate) struct Demand {
    pub(crate) by_owner: bool,
    pub(crate) unlisted: bool,
    pub(crate) unowned: bool,
}

/// Two SIDs per pass are enough to tell two descriptors apart: where some token with the base is granted a bit by the
/// new one and not by the old one, so is a token that has the base and two further SIDs per pass at most, and no
/// privilege.
pub fn two_sids_per_pass_suffice()
    ensures suffice { TwoSidsPerPassSuffice }
    ensures base { WitnessHasBase }
{}

impl PassSids {
    fn is(&self, other: &PassSids) -> bool
        ensures { result ≡ true → self.now ≡ other.now }
    {
        self.allowed.is(&other.allowed) && is_same(&self.denied, &other.denied)
    }
}

fn is_same(one: &Option<Sid>, other: &Option<Sid>) -> bool
    ensures { result ≡ true → one.now ≡ other.now }
{
    match (one, other) {
        (None, None) => true,
        (Some(one), Some(other)) => one.is(other),
        _ => false,
    }
}

impl Witness {
    /// Whether both are the same token.
    pub(crate) fn is(&self, other: &Witness) -> bool
        ensures { result ≡ true → self.now ≡ other.now }
    {
        self.first.is(&other.first) && is_same_pass(&self.second, &other.second)
    }
}

fn is_same_pass(one: &Option<PassSids>, other: &Option<PassSids>) -> bool
    ensures { result ≡ true → one.now ≡ other.now }
{
    match (one, other) {
        (None, None) => true,
        (Some(one), Some(other)) => one.is(other),
        _ => false,
    }
}

impl Demand {
    /// What is left to the second pass.
    pub(crate) fn rest(self) -> Demand
        ensures { result ≡ rest_of self }
    {
        Demand {
            by_owner: self.by_owner,
            unlisted: !self.unlisted,
            unowned: !self.unowned,
        }
    }

    /// Whether a search of the pass is for the rest of what unrestricted tokens were tried for: what only SIDs show for
    /// which the old descriptor grants a bit as the owner's.
    pub(crate) fn is_rest(self, pass: Pass) -> bool
        ensures { result ≡ is_rest pass self }
    {
        match pass {
            Pass::First => self.unlisted && !self.unowned,
            Pass::Second => false,
        }
    }
}
