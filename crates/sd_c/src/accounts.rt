//! The calls over the accounts of a file: who a text means, the SIDs of a user's token, and the users that may log on.

ghost use Rattle.std.specs.Prelude.{◌≡◌, ◌++◌, [], IfErr, IfOk, OnOk};
ghost use Rattle.std.specs.List.{flat_map};
ghost use Rattle.std.specs.Str.{IsUtf8};
ghost use Rattle.sd_sid.specs.SidBytes.{bytes_of_sid};
ghost use Rattle.sd_accounts.specs.Accounts.{rows_of};
ghost use Rattle.sd_accounts.specs.Users.{named};
ghost use Rattle.sd_named.specs.File.{AreAccounts, IsFileError};
ghost use Rattle.sd_c.specs.declared.accounts.NotAnswered.TheVariants as reasons;
ghost use Rattle.sd_c.specs.declared.refusal.Refusal.TheVariants.{Memory};
ghost use Rattle.sd_c.specs.Accounts.{AreSidBytes, AreUsersIn, HasAccounts, IsTokenIn, KeepsAccounts, RefusesNamed};
ghost use Rattle.sd_c.specs.Accounts.{RefusesUser, RefusesUsers, WritesFrom, name_number, no_file};
ghost use Rattle.sd_c.specs.Accounts.{no_user, not_answered, row_number, user_line, users_text};
ghost use Rattle.sd_c.specs.Kept.{Stays};

use crate::call_answer::{
    ACCOUNT, HANDLE, MEMORY, OK, ROW, UTF8, Written, not_written, refused, write,
};
use crate::handle::{Handle, Kept};
use crate::in_domain::domain_argument;
use crate::refusal::Refusal;
use crate::text::utf8_of;
use sd_accounts::{Accounts, AccountsFault, NameError};
use sd_named::{FileError, NamedError, Naming, accounts_of};
use sd_sid::{Sid, push_sid};
use sd_text::{Aliases, print_full_sid};
use std::alloc::{AllocError, Global};
use std::sync::Arc;

/// Why a call over accounts writes nothing.
#[derive(Clone, Copy)]
pub enum NotAnswered {
    /// The handle keeps no accounts.
    Handle,
    /// An argument is refused, or out of memory.
    Refused(Refusal),
    /// The text means no user that may log on.
    User(NamedError),
}

impl From<Refusal> for NotAnswered {
    ghost from_gives = { λ why e. e ≡ reasons.Refused why };

    fn from(why: Refusal) -> NotAnswered {
        NotAnswered::Refused(why)
    }
}

impl From<AllocError> for NotAnswered {
    ghost from_gives = { λ _ e. e ≡ reasons.Refused Memory };

    fn from(_: AllocError) -> NotAnswered {
        NotAnswered::Refused(Refusal::Memory)
    }
}

/// Keeps the accounts of a file's text, and those that need no file ([MS-DTYP] 2.4.2.4). Refused if the handle is in
/// use, if the text isn't UTF-8, at the first line that is no row, or out of memory; then the handle is unchanged.
#[unsafe(no_mangle)]
pub extern "C" fn hudarin_keep_accounts(
    alloc: Global,
    text: &[u8],
    accounts: &mut Handle,
) -> Written
    ensures { KeepsAccounts text.now accounts.old accounts.new result }
{
    if accounts.is_there == 1 {
        return not_written(HANDLE, 0, 0);
    }
    match kept_accounts(alloc, text) {
        Ok(kept) => {
            accounts.put(kept);
            not_written(OK, 0, 0)
        }
        Err(why) => no_file(why),
    }
}

/// Writes the SIDs of the token of a user that logged on ([MS-DTYP] 2.4.2.2, 2.5.2) into the buffer, one after the
/// other: the user's own, then its groups, each once. The text is a SID, also by the aliases of a domain if one is
/// given, or the name of an account. Refused if the handle keeps no accounts, if bytes of a domain are no domain's, if
/// the text isn't UTF-8 or means no user that may log on, or out of memory; then, and if the buffer is too small,
/// nothing is written.
#[unsafe(no_mangle)]
pub extern "C" fn hudarin_account_sids(
    alloc: Global,
    accounts: &mut Handle,
    domain: &[u8],
    user: &[u8],
    room: &mut [u8],
) -> Written
    ensures answer { WritesFrom (IsTokenIn domain.now user.now) (RefusesUser domain.now user.now)
        accounts.old room.old room.new result }
    ensures accounts { Stays accounts.old accounts.new }
{
    let Some(kept) = accounts.take(alloc) else {
        return not_answered(NotAnswered::Handle);
    };
    let answer = match token_in(alloc, &kept, domain, user) {
        Ok(bytes) => write(&bytes, room),
        Err(why) => not_answered(why),
    };
    accounts.put(kept);
    answer
}

/// Writes a line for each user that may log on ([MS-DTYP] 2.4.2.1) into the buffer, in the file's order: its SID in
/// full, a blank and its name. Refused if the handle keeps no accounts, or out of memory; then, and if the buffer is
/// too small, nothing is written.
#[unsafe(no_mangle)]
pub extern "C" fn hudarin_account_users(
    alloc: Global,
    accounts: &mut Handle,
    room: &mut [u8],
) -> Written
    ensures answer { WritesFrom AreUsersIn RefusesUsers accounts.old room.old room.new result }
    ensures accounts { Stays accounts.old accounts.new }
{
    let Some(kept) = accounts.take(alloc) else {
        return not_answered(NotAnswered::Handle);
    };
    let answer = match users_in(alloc, &kept) {
        Ok(bytes) => write(&bytes, room),
        Err(why) => not_answered(why),
    };
    accounts.put(kept);
    answer
}

// ---- answers

fn no_file(why: FileError) -> Written
    ensures { result ≡ no_file why }
{
    match why {
        FileError::Utf8 { at } => not_written(UTF8, 0, at),
        FileError::Row { line, kind } => not_written(ROW, row_number(kind), line),
        FileError::Memory => not_written(MEMORY, 0, 0),
    }
}

fn row_number(fault: AccountsFault) -> u8
    ensures { result ≡ row_number fault }
{
    match fault {
        AccountsFault::Keyword => 1,
        AccountsFault::Sid => 2,
        AccountsFault::Name => 3,
        AccountsFault::Surplus => 4,
        AccountsFault::Incomplete => 5,
    }
}

fn not_answered(why: NotAnswered) -> Written
    ensures { result ≡ not_answered why }
{
    match why {
        NotAnswered::Handle => not_written(HANDLE, 0, 0),
        NotAnswered::Refused(why) => refused(why),
        NotAnswered::User(error) => no_user(error),
    }
}

fn no_user(error: NamedError) -> Written
    ensures { result ≡ no_user error }
{
    match error {
        NamedError::User(error) | NamedError::Word { error, .. } => {
            not_written(ACCOUNT, name_number(error), 0)
        }
        NamedError::NoUser => not_written(ACCOUNT, 3, 0),
        NamedError::Disabled => not_written(ACCOUNT, 4, 0),
        NamedError::Memory => not_written(MEMORY, 0, 0),
    }
}

fn name_number(error: NameError) -> u8
    ensures { result ≡ name_number error }
{
    match error {
        NameError::Unknown => 1,
        NameError::Ambiguous => 2,
    }
}

// ---- what is kept and written

fn kept_accounts(alloc: Global, text: &[u8]) -> Result<Box<Kept>, FileError>
    ensures ok { IfOk result (λ kept. IsUtf8 text.now × HasAccounts (AreAccounts text.now) kept.value) }
    ensures err { IfErr result (λ why. IsFileError text.now why) }
{
    let accounts = accounts_of(alloc, text)?;
    Ok(boxed_accounts(alloc, accounts)?)
}

/// The accounts, for one handle.
fn boxed_accounts(alloc: Global, accounts: Accounts) -> Result<Box<Kept>, AllocError>
    ensures { IfOk result (λ kept. HasAccounts (λ rows. rows ≡ rows_of accounts) kept.value) }
{
    let accounts = Arc::new(alloc, accounts)?;
    Ok(Box::new(alloc, Kept::Accounts(accounts))?)
}

fn token_in(alloc: Global, kept: &Kept, domain: &[u8], user: &[u8]) -> Result<Vec<u8>, NotAnswered>
    ensures ok { IfOk result (λ bytes. IsTokenIn domain.now user.now kept.now bytes.items) }
    ensures err { IfErr result (λ why. RefusesUser domain.now user.now kept.now why) }
{
    let Kept::Accounts(accounts) = kept else {
        return Err(NotAnswered::Handle);
    };
    let known = domain_argument(domain)?;
    match utf8_of(user) {
        Ok(user) => token_of(alloc, accounts, Aliases::in_domain(known), user),
        Err(place) => Err(NotAnswered::Refused(Refusal::Utf8 { place })),
    }
}

/// The SIDs of the token of the user whom the text means, one after the other.
fn token_of(
    alloc: Global,
    accounts: &Accounts,
    known: Aliases,
    user: &str,
) -> Result<Vec<u8>, NotAnswered>
    ensures ok { IfOk result (λ bytes. AreSidBytes (rows_of accounts.now) known user.now bytes.items) }
    ensures err { IfErr result (λ why. RefusesNamed (rows_of accounts.now) known user.now why) }
{
    let naming = Naming {
        alloc,
        accounts,
        known,
    };
    match naming.sids_of_user(user) {
        Ok(sids) => Ok(joined(alloc, &sids)?),
        Err(error) => Err(NotAnswered::User(error)),
    }
}

fn joined(alloc: Global, sids: &[Sid]) -> Result<Vec<u8>, AllocError>
    ensures { IfOk result (λ bytes. bytes.items ≡ flat_map bytes_of_sid sids.now) }
{
    let mut bytes = Vec::new(alloc);
    for sid in sids {
        push_sid(&mut bytes, sid)?;
    }
    Ok(bytes)
}

fn users_in(alloc: Global, kept: &Kept) -> Result<Vec<u8>, NotAnswered>
    ensures ok { IfOk result (λ bytes. AreUsersIn kept.now bytes.items) }
    ensures err { IfErr result (λ why. RefusesUsers kept.now why) }
{
    let Kept::Accounts(accounts) = kept else {
        return Err(NotAnswered::Handle);
    };
    Ok(users_text(alloc, accounts)?)
}

fn users_text(alloc: Global, accounts: &Accounts) -> Result<Vec<u8>, AllocError>
    ensures { IfOk result (λ text. text.items ≡ users_text (rows_of accounts.now)) }
{
    let users = accounts.users(alloc)?;
    user_lines(alloc, &users)
}

fn user_lines(alloc: Global, users: &[(Sid, &str)]) -> Result<Vec<u8>, AllocError>
    ensures { IfOk result (λ text. text.items ≡ flat_map user_line (named users.now)) }
{
    let mut text = Vec::new(alloc);
    for user in users {
        push_user(alloc, &mut text, &user.0, user.1)?;
    }
    Ok(text)
}

fn push_user(alloc: Global, text: &mut Vec<u8>, sid: &Sid, name: &str) -> Result<(), AllocError>
    ensures { OnOk result (text.new.items ≡ text.old.items ++ user_line (sid.now, name.now)) }
{
    let sid = print_full_sid(alloc, sid)?;
    text.extend_from_slice(sid.as_bytes())?;
    text.push(b' ')?;
    text.extend_from_slice(name.as_bytes())?;
    text.push(b'\n')?;
    Ok(())
}
