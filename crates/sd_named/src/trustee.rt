//! Whom a text means where accounts are known.
ghost use Rattle.sd_accounts.specs.Accounts.{rows_of};
ghost use Rattle.sd_named.specs.Trustee.{IsBeside, MeansWhom};

use sd_accounts::{Accounts, NameError};
use sd_sid::Sid;
use sd_text::{Aliases, read_sid_text_in};

/// Whom the text means: the SID that it spells, with the aliases that are known, or the account that it names, if there
/// is no other ([MS-DTYP] 2.4.2.1). `Unknown`: there is none; `Ambiguous`: there are two.
pub fn trustee_of(accounts: &Accounts, known: Aliases, text: &str) -> Result<Sid, NameError>
    ensures { MeansWhom (rows_of accounts.now) known text.now result }
{
    let named = accounts.sid_named(text);
    match read_sid_text_in(known, text) {
        Ok(sid) => beside(sid, named),
        Err(_) => named,
    }
}

/// The SID that is spelled, if no other is named.
fn beside(spelled: Sid, named: Result<Sid, NameError>) -> Result<Sid, NameError>
    ensures { IsBeside spelled named result }
{
    match named {
        Ok(named) if named.is(&spelled) => Ok(spelled),
        Err(NameError::Unknown) => Ok(spelled),
        _ => Err(NameError::Ambiguous),
    }
}
