//! The rows of the accounts.

ghost use Rattle.std.specs.Prelude.{◌≡◌, Err, IfOk};
ghost use Rattle.std.specs.Option.{option_copied};
ghost use Rattle.std.specs.Prelude.{string_bytes};
ghost use Rattle.sd_accounts.specs.Fault.{IsNoRow, IsNoSidAndName};
ghost use Rattle.sd_accounts.specs.Kept.{row_of};
ghost use Rattle.sd_accounts.specs.Row.{IsRow, IsSidAndName};
ghost use Rattle.sd_accounts.specs.declared.fault.AccountsFault.{AccountsFault};

use crate::fault::{AccountsFault, RowError};
use crate::words::{cut, left_after, name_in, one_sid, sid_in, two_sids};
use sd_sid::Sid;
use std::alloc::Global;

/// What a line says.
#[derive(Drop)]
pub(crate) enum Row {
    /// The SID is of a user, and this is a name of it.
    User { sid: Sid, name: String },
    /// The SID is of a group, and this is a name of it.
    Group { sid: Sid, name: String },
    /// The group has this member.
    Member { group: Sid, member: Sid },
    /// The user's primary group.
    Primary { user: Sid, group: Sid },
    /// The user's account is disabled.
    Disabled { user: Sid },
}

/// The row that the line is.
pub(crate) fn read_row(alloc: Global, line: &str) -> Result<Row, RowError>
    ensures row { IfOk result (λ row. IsRow line.now (row_of row)) }
    ensures fault { (fault : AccountsFault) → result ≡ Err (RowError.Fault fault) → IsNoRow line.now fault }
{
    let (keyword, left) = cut(line, ' ');
    match keyword {
        "user" => {
            let (sid, name) = sid_and_name(alloc, left)?;
            Ok(Row::User { sid, name })
        }
        "group" => {
            let (sid, name) = sid_and_name(alloc, left)?;
            Ok(Row::Group { sid, name })
        }
        "member" => {
            let (group, member) = two_sids(left)?;
            Ok(Row::Member { group, member })
        }
        "primary" => {
            let (user, group) = two_sids(left)?;
            Ok(Row::Primary { user, group })
        }
        "disabled" => {
            let user = one_sid(left)?;
            Ok(Row::Disabled { user })
        }
        "incomplete" => Err(RowError::Fault(AccountsFault::Incomplete)),
        _ => Err(RowError::Fault(AccountsFault::Keyword)),
    }
}

/// The SID and the name that the rest of a line is.
fn sid_and_name(alloc: Global, left: Option<&str>) -> Result<(Sid, String), RowError>
    ensures row { IfOk result (λ row. IsSidAndName (option_copied left.entry) row.0 (string_bytes row.1)) }
    ensures fault { (fault : AccountsFault) → result ≡ Err (RowError.Fault fault)
        → IsNoSidAndName (option_copied left.entry) fault }
{
    let sid = sid_in(left)?;
    let name = name_in(left_after(left))?;
    Ok((sid, String::from_str(alloc, name)?))
}
