//! Whom a plain descriptor may grant something: who has none of these SIDs is granted nothing, and isn't asked for.
ghost use Rattle.std.specs.Prelude.{◌≡◌, ℕ, List, IfOk, IfSome};
ghost use Rattle.std.specs.Option.{option_to_list};
ghost use Rattle.sd_accounts.specs.Accounts.{rows_of};
ghost use Rattle.sd_accounts.specs.Search.{searched, wanted_by};
ghost use Rattle.sd_commands.specs.declared.settings.Settings.{Settings};
ghost use Rattle.sd_people.specs.Passed.{Speaks, allowed_sid, subjects};
ghost use Rattle.sd_people.specs.Reading.{IsReadingOf};

use crate::reading::Reading;
use sd_accounts::{Accounts, Search};
use sd_acl::{Ace, Dacl};
use sd_sid::Sid;
use std::alloc::{AllocError, Global};

/// A search for the SIDs of which one has whoever the descriptor grants something ([MS-DTYP] 2.5.3.2). None where each
/// user is to be asked: where there is no list.
pub(crate) fn search_for<'a>(
    alloc: Global,
    accounts: &'a Accounts,
    reading: &Reading,
) -> Result<Option<Search<'a>>, AllocError>
    ensures searched { IfOk result (λ found. IfSome found (λ search. searched search ≡ rows_of accounts.now)) }
    ensures speaks { IfOk result (λ found. IfSome found (λ search. (settings : Settings) (text mask : List ℕ)
        → IsReadingOf settings text mask reading.now → Speaks settings text mask (wanted_by search))) }
{
    let descriptor = &reading.descriptor;
    let Dacl::List(list) = &descriptor.dacl else {
        return Ok(None);
    };
    let sids = subjects(alloc, &descriptor.owner, list.entries())?;
    Ok(Some(Search::new(alloc, accounts, &sids)?))
}

/// The owner, and whom effective entries allow something.
fn subjects(alloc: Global, owner: &Option<Sid>, entries: &[Ace]) -> Result<Vec<Sid>, AllocError>
    ensures { IfOk result (λ sids. sids.items ≡ subjects owner.now entries.now) }
{
    let mut sids = owner_alone(alloc, owner)?;
    for entry in entries {
        if let Some(sid) = allowed_sid(entry) {
            sids.push(sid)?;
        }
    }
    Ok(sids)
}

/// The owner, if there is one.
fn owner_alone(alloc: Global, owner: &Option<Sid>) -> Result<Vec<Sid>, AllocError>
    ensures { IfOk result (λ sids. sids.items ≡ option_to_list owner.now) }
{
    match owner {
        Some(owner) => Ok(vec![in alloc; *owner]?),
        None => Ok(Vec::new(alloc)),
    }
}

/// Whom an entry allows something, if it is an effective allow entry.
fn allowed_sid(entry: &Ace) -> Option<Sid>
    ensures { result ≡ allowed_sid entry.now }
{
    if !entry.is_inherit_only() && entry.kind.is_allow() {
        Some(entry.sid)
    } else {
        None
    }
}
