//! Domains: [MS-DTYP] 2.4.2.4.

ghost use Rattle.std.specs.Prelude.{◌≡◌, IfSome, Some};
ghost use Rattle.sd_text.specs.Domain.{domain_sid, account_sid};

use crate::alias::sid_from_parts;
use sd_sid::Sid;

/// A domain, to which aliases of accounts and groups refer: its SID is S-1-5-21 and three more sub-authorities
/// ([MS-DTYP] 2.4.2.4).
#[derive(Clone, Copy, Debug, PartialEq, Eq)]
pub struct Domain {
    first: u32,
    second: u32,
    third: u32,
}

impl Domain {
    /// The domain with this SID, if it is a domain's: S-1-5-21 and three more sub-authorities.
    pub fn new(sid: &Sid) -> Option<Domain>
        ensures is { IfSome result (λ domain. domain_sid domain ≡ sid.now) }
        ensures found { (domain : Domain) → domain_sid domain ≡ sid.now → result ≡ Some domain }
    {
        match (sid.authority(), sid.subs()) {
            (5, [21, first, second, third]) => Some(Domain {
                first: *first,
                second: *second,
                third: *third,
            }),
            _ => None,
        }
    }

    /// The domain's SID.
    pub fn sid(self) -> Sid
        ensures { result ≡ domain_sid self }
    {
        sid_from_parts(5, &[21, self.first, self.second, self.third])
    }

    /// The SID of an account or a group of the domain, by its relative identifier ([MS-DTYP] 2.4.2.4).
    pub fn account(self, relative: u32) -> Sid
        ensures { result ≡ account_sid self relative }
    {
        sid_from_parts(5, &[21, self.first, self.second, self.third, relative])
    }
}
