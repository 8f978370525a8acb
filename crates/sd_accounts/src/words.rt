//! The words of a line, and the lines of a text.

ghost use Rattle.std.specs.Prelude.{◌≡◌, ◌<◌, None, Some, IfOk, IfErr, OnOk, IfSome, length};
ghost use Rattle.std.specs.Bool.{Decides};
ghost use Rattle.std.specs.List.{list_any};
ghost use Rattle.std.specs.Option.{option_copied};
ghost use Rattle.std.specs.Str.Lines.{strip_carriage_return};
ghost use Rattle.sd_accounts.specs.Row.{BeginsWithSid, IsName, SaysNothing, after, before, left_after};
ghost use Rattle.sd_accounts.specs.Row.{AreTwoSids, IsOneSid, is_control};
ghost use Rattle.sd_accounts.specs.Fault.{AreNoTwoSids, BeginsWithNoSid, IsNoName, IsNoOneSid, IsSomething};
ghost use Rattle.sd_accounts.specs.declared.fault.AccountsFault.{AccountsFault};

use crate::fault::AccountsFault;
use sd_sid::Sid;
use sd_text::read_sid_text;

/// The text before the first such character, or all of it, and the text after it, if there is one.
pub(crate) fn cut(text: &str, mark: char) -> (&str, Option<&str>)
    requires { mark < 128 }
    ensures before { result.0.now ≡ before mark text.now }
    ensures after { option_copied result.1 ≡ after mark text.now }
    ensures less { IfSome result.1 (λ rest. length rest.now < length text.now) }
{
    match text.split_once(mark) {
        Some((front, rest)) => (front, Some(rest)),
        None => (text, None),
    }
}

/// The line without the carriage return at its end.
pub(crate) fn without_return(line: &str) -> &str
    ensures { result.now ≡ strip_carriage_return line.now }
{
    line.strip_suffix('\r').unwrap_or(line)
}

/// Whether the line is empty or a comment.
pub(crate) fn says_nothing(line: &str) -> bool
    ensures { Decides result (SaysNothing line.now) }
{
    matches!(line.as_bytes(), [] | [b'#', ..])
}

/// What is left of a line after its first word.
pub(crate) fn left_after(left: Option<&str>) -> Option<&str>
    ensures { option_copied result ≡ left_after (option_copied left.entry) }
{
    match left {
        Some(text) => cut(text, ' ').1,
        None => None,
    }
}

/// The SID with whose text the rest of a line begins ([MS-DTYP] 2.4.2.1).
pub(crate) fn sid_in(left: Option<&str>) -> Result<Sid, AccountsFault>
    ensures sid { IfOk result (BeginsWithSid (option_copied left.entry)) }
    ensures fault { IfErr result (λ fault. (fault ≡ AccountsFault.Sid) × BeginsWithNoSid (option_copied left.entry)) }
{
    let Some(text) = left else {
        return Err(AccountsFault::Sid);
    };
    match read_sid_text(cut(text, ' ').0) {
        Ok(sid) => Ok(sid),
        Err(_) => Err(AccountsFault::Sid),
    }
}

/// Nothing is left of a line.
fn end(left: Option<&str>) -> Result<(), AccountsFault>
    ensures end { OnOk result (option_copied left.entry ≡ None) }
    ensures fault { IfErr result (λ fault. (fault ≡ AccountsFault.Surplus) × IsSomething (option_copied left.entry)) }
{
    match left {
        Some(_) => Err(AccountsFault::Surplus),
        None => Ok(()),
    }
}

/// The one SID that the rest of a line is.
pub(crate) fn one_sid(left: Option<&str>) -> Result<Sid, AccountsFault>
    ensures sid { IfOk result (IsOneSid (option_copied left.entry)) }
    ensures fault { IfErr result (IsNoOneSid (option_copied left.entry)) }
{
    let sid = sid_in(left)?;
    end(left_after(left))?;
    Ok(sid)
}

/// The two SIDs that the rest of a line is.
pub(crate) fn two_sids(left: Option<&str>) -> Result<(Sid, Sid), AccountsFault>
    ensures sids { IfOk result (λ sids. AreTwoSids (option_copied left.entry) sids.0 sids.1) }
    ensures fault { IfErr result (AreNoTwoSids (option_copied left.entry)) }
{
    let one = sid_in(left)?;
    let rest = left_after(left);
    let two = sid_in(rest)?;
    end(left_after(rest))?;
    Ok((one, two))
}

/// The name that the rest of a line is.
pub(crate) fn name_in(left: Option<&str>) -> Result<&str, AccountsFault>
    ensures name { IfOk result (λ name. (option_copied left.entry ≡ Some name.now) × IsName name.now) }
    ensures fault { IfErr result (λ fault. (fault ≡ AccountsFault.Name) × IsNoName (option_copied left.entry)) }
{
    match left {
        Some(name) if is_name(name) => Ok(name),
        _ => Err(AccountsFault::Name),
    }
}

/// Whether a text has a character, and no control character.
fn is_name(name: &str) -> bool
    ensures { Decides result (IsName name.now) }
{
    !name.is_empty() && !has_control(name)
}

/// Whether a text has a control character.
fn has_control(text: &str) -> bool
    ensures { result ≡ list_any is_control text.now }
{
    text.as_bytes().iter().any(|c| *c < 0x20 || *c == 0x7f)
}
