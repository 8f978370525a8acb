//! How a text names an account.

ghost use Rattle.std.specs.Prelude.{None};
ghost use Rattle.std.specs.Bool.{Decides};
ghost use Rattle.sd_accounts.specs.Names.{FollowsDomain, IsBare, NamesAs, PrecedesDomain};

use crate::words::cut;

/// Whether the text names an account of this name: it is alike but for the case of ASCII letters, or it has no domain
/// and is the name without its domain.
pub(crate) fn names_as(text: &str, name: &str) -> bool
    ensures { Decides result (NamesAs text.now name.now) }
{
    if text.eq_ignore_ascii_case(name) {
        return true;
    }
    is_bare(text) && (follows_domain(text, name) || precedes_domain(text, name))
}

/// Whether the text has no domain.
fn is_bare(text: &str) -> bool
    ensures { Decides result (IsBare text.now) }
{
    cut(text, '\\').1.is_none() && cut(text, '@').1.is_none()
}

/// Whether the name is a domain, `\` and the text.
fn follows_domain(text: &str, name: &str) -> bool
    ensures { Decides result (FollowsDomain text.now name.now) }
{
    match cut(name, '\\').1 {
        Some(account) => text.eq_ignore_ascii_case(account),
        None => false,
    }
}

/// Whether the name is the text, `@` and a domain.
fn precedes_domain(text: &str, name: &str) -> bool
    ensures { Decides result (PrecedesDomain text.now name.now) }
{
    let (account, domain) = cut(name, '@');
    domain.is_some() && text.eq_ignore_ascii_case(account)
}
