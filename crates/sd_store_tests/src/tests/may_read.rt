//! The example of docs/LIBRARY.md.

use sd_check::{GroupState, Privileges, Token, Verdict, check};
use sd_sid::{GenericMapping, Mask};
use sd_text::{TextError, read_sddl, read_sid_text};
use std::alloc::Global;

/// Whether the descriptor lets the user, as one of the built-in users, read a file's data.
pub fn may_read(alloc: Global, sddl: &str, user: &str) -> Result<bool, TextError> {
    let descriptor = read_sddl(alloc, sddl)?;
    let mut groups = Vec::new(alloc);
    groups.push((read_sid_text("BU")?, GroupState::Enabled))?;
    // (the default has neither privilege)
    let token = Token::new(read_sid_text(user)?, groups, Privileges::default());
    match check(&descriptor, &GenericMapping::file(), &token, Mask(0x1)) {
        Verdict::Granted(_) => Ok(true),
        _ => Ok(false),
    }
}

#[test]
fn a_grant_to_the_users_lets_a_user_read(rt: HostRuntime) {
    let user = "S-1-5-21-1-2-3-1001";
    let by_users = may_read(rt.alloc(), "O:BAG:SYD:(A;;FR;;;BU)", user);
    assert_eq!(rt; by_users, Ok(true));
    let by_administrators = may_read(rt.alloc(), "O:BAG:SYD:(A;;FR;;;BA)", user);
    assert_eq!(rt; by_administrators, Ok(false));
}
