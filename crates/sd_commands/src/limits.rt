//! What of a SACL may deny what a DACL grants, or change what conditions ask about, where an answer leaves it out.
ghost use Rattle.std.specs.Prelude.{◌≡◌, ◌||◌, IfOk};
ghost use Rattle.sd_access.specs.Limits.{has_limits};
ghost use Rattle.std.specs.List.{list_any};
ghost use Rattle.sd_commands.specs.Limits.{ChangeHasLimits, ask_claims, asks, both_ask, hands_on_claims, has_claims};
ghost use Rattle.sd_commands.specs.Limits.{is_handed_claim, sacl_left_out};

use sd_access::{has_limits, resource_claims};
use sd_answer::LABEL_ALONE;
use sd_line::Line;
use sd_show::same_acl;
use sd_specialize::{conditional_place, hands_on_conditions};
use sd_whole::{WholeAce, WholeAcl, WholeDescriptor, WholeKind};
use std::alloc::{AllocError, Global};

/// Whether `compare` leaves out entries of SACLs that may deny: of a container also what is made in it inherits them;
/// or about which the conditions of both may ask.
pub(crate) fn change_has_limits(
    alloc: Global,
    below: bool,
    old: &WholeDescriptor,
    new: &WholeDescriptor,
) -> Result<bool, AllocError>
    ensures { IfOk result (λ depends. ChangeHasLimits depends below old.now new.now) }
{
    let same = same_acl(&old.sacl, &new.sacl);
    let asks = ask_claims(alloc, below, old, new)?;
    Ok((either_has_limits(below, old, new) || asks) && !same)
}

fn either_has_limits(below: bool, old: &WholeDescriptor, new: &WholeDescriptor) -> bool
    ensures { result ≡ (has_limits below old.now.sacl || has_limits below new.now.sacl) }
{
    has_limits(below, &old.sacl) || has_limits(below, &new.sacl)
}

/// Whether both have conditions, which may ask about the claims of one's SACL ([MS-DTYP] 2.4.4.15).
fn ask_claims(
    alloc: Global,
    below: bool,
    old: &WholeDescriptor,
    new: &WholeDescriptor,
) -> Result<bool, AllocError>
    ensures { IfOk result (λ asks. asks ≡ ask_claims below old.now new.now) }
{
    if !both_ask(below, old, new) {
        return Ok(false);
    }
    Ok(has_claims(alloc, below, &old.sacl)? || has_claims(alloc, below, &new.sacl)?)
}

fn both_ask(below: bool, old: &WholeDescriptor, new: &WholeDescriptor) -> bool
    ensures { result ≡ both_ask below old.now new.now }
{
    asks(below, &old.dacl) && asks(below, &new.dacl)
}

fn asks(below: bool, dacl: &WholeAcl) -> bool
    ensures { result ≡ asks below dacl.now }
{
    conditional_place(dacl).is_some() || (below && hands_on_conditions(dacl))
}

fn has_claims(alloc: Global, below: bool, sacl: &WholeAcl) -> Result<bool, AllocError>
    ensures { IfOk result (λ has. has ≡ has_claims below sacl.now) }
{
    let claims = resource_claims(alloc, sacl)?;
    Ok(!claims.is_empty() || (below && hands_on_claims(sacl)))
}

fn hands_on_claims(sacl: &WholeAcl) -> bool
    ensures { result ≡ hands_on_claims sacl.now }
{
    match sacl {
        WholeAcl::Absent | WholeAcl::Null => false,
        WholeAcl::List(list) => any_handed_claim(list.entries()),
    }
}

fn any_handed_claim(entries: &[WholeAce]) -> bool
    ensures { result ≡ list_any is_handed_claim entries.now }
{
    entries.iter().any(is_handed_claim)
}

fn is_handed_claim(entry: &WholeAce) -> bool
    ensures { result ≡ is_handed_claim entry.now }
{
    match entry {
        WholeAce::Typed(ace) => {
            matches!(ace.kind, WholeKind::ResourceAttribute) && ace.flags.pass_on()
        }
        _ => false,
    }
}

/// The line of an answer that leaves them out.
pub(crate) fn sacl_left_out(alloc: Global, is_left: bool) -> Result<Vec<Line>, AllocError>
    ensures { IfOk result (λ lines. lines.items ≡ sacl_left_out is_left) }
{
    if !is_left {
        return Ok(Vec::new(alloc));
    }
    let line = Line::new(alloc, LABEL_ALONE, Vec::new(alloc))?;
    Ok(vec![in alloc; line]?)
}
