//! The groups of a user by logging on.
ghost use Rattle.std.specs.Prelude.{◌≡◌, IfOk};
ghost use Rattle.sd_named.specs.Arguments.{are_guest, is_guest, logged_on, logon_groups};

use sd_sid::Sid;
use std::alloc::{AllocError, Global};

/// The groups that are added: none where the words have the groups of a logon.
pub(crate) fn logon_groups(
    alloc: Global,
    has_logon: bool,
    user: &Sid,
) -> Result<Vec<Sid>, AllocError>
    ensures { IfOk result (λ groups. groups.items ≡ logon_groups has_logon user.now) }
{
    if has_logon {
        return Ok(Vec::new(alloc));
    }
    logged_on(alloc, user)
}

/// Everyone and Authenticated Users ([MS-DTYP] 2.4.2.4); a guest isn't the second, and who is anonymous neither.
fn logged_on(alloc: Global, user: &Sid) -> Result<Vec<Sid>, AllocError>
    ensures { IfOk result (λ groups. groups.items ≡ logged_on user.now) }
{
    let anonymous = Sid::new(5, &[7]).unwrap();
    let everyone = Sid::new(1, &[0]).unwrap();
    let authenticated_users = Sid::new(5, &[11]).unwrap();
    if user.is(&anonymous) {
        return Ok(Vec::new(alloc));
    }
    if is_guest(user) {
        return Ok(vec![in alloc; everyone]?);
    }
    Ok(vec![in alloc; everyone, authenticated_users]?)
}

/// Whether it is a domain's or a machine's guest ([MS-DTYP] 2.4.2.4, S-1-5-21-..-501).
fn is_guest(user: &Sid) -> bool
    ensures { result ≡ is_guest user.now }
{
    user.authority() == 5 && are_guest(user.subs())
}

fn are_guest(subs: &[u32]) -> bool
    ensures { result ≡ are_guest subs.now }
{
    match subs {
        [first, _, _, _, last] => *first == 21 && *last == 501,
        _ => false,
    }
}
