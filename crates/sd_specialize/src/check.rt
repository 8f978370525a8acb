//! The check of a whole DACL for one question, entry by entry.

ghost use Rattle.std.specs.Prelude.{◌≡◌, ◌<◌, ◌≤◌, ◌++◌, ◌∷◌, [], length, IsErrOf, IfOk, List, Ok, Err};
ghost use Rattle.sd_specialize.specs.declared.fault.SpecializeError.{SpecializeError};
ghost use Rattle.sd_acl.specs.Ace.{ace_size};
ghost use Rattle.sd_acl.specs.declared.ace.Ace.{Ace};
ghost use Rattle.sd_check.specs.Fold.{asking, IsCheckProgress};
ghost use Rattle.sd_check.specs.Token.{is_restricted};
ghost use Rattle.sd_sid.specs.Sid.{SidValue};
ghost use Rattle.sd_specialize.specs.Context.{context_of};
ghost use Rattle.sd_specialize.specs.Entry.{entry_for, nobody};
ghost use Rattle.sd_specialize.specs.Specialize.{Fails, Gives, HasDaclEntries, numbered};
ghost use Rattle.sd_specialize.specs.Verdict.{dacl_verdict, list_verdict};

use crate::context::Context;
use crate::descriptor::at_number;
use crate::entry::{entry_for, nobody};
use crate::fault::{SpecializeError, SpecializeFault};
use crate::part::Part;
use sd_acl::{ACL_HEADER_BYTES, MAX_ACL_BYTES};
use sd_check::{CheckProgress, Question as Asked, Token, Verdict};
use sd_sid::{GenericMapping, Mask, Sid};
use sd_whole::{WholeAce, WholeAcl};
use std::alloc::Global;

/// The verdict on the request, for the entries of a whole DACL as they are for the question ([MS-DTYP] 2.5.3.2): that
/// of `check` on the list of `specialized`, or its fault. There are allocations for parsing and evaluating conditions.
pub fn check_dacl(
    alloc: Global,
    context: &Context<'_>,
    owner: &Option<Sid>,
    dacl: &WholeAcl,
    mapping: &GenericMapping,
    token: &Token,
    asked: Mask,
) -> Result<Verdict, SpecializeError>
    ensures exact { Gives (λ v. v) result
        (dacl_verdict (context_of context.now) owner.now dacl.now mapping.now token.now asked) }
    ensures memory { IsErrOf result SpecializeError.Memory → HasDaclEntries dacl.now }
{
    let asked = Asked {
        owner,
        mapping,
        token,
        asked,
    };
    match dacl {
        WholeAcl::Absent | WholeAcl::Null => Ok(asked.verdict_without_a_list()),
        WholeAcl::List(list) => {
            if token.is_restricted() {
                check_entries::<true>(alloc, context, &asked, list.entries())
            } else {
                check_entries::<false>(alloc, context, &asked, list.entries())
            }
        }
    }
}

/// The verdict by the entries of a list, where BOTH says whether the token is restricted.
fn check_entries<const BOTH: bool>(
    alloc: Global,
    context: &Context<'_>,
    asked: &Asked<'_, Sid>,
    entries: &[WholeAce],
) -> Result<Verdict, SpecializeError>
    requires both { BOTH ≡ is_restricted asked.now.token.now }
    ensures exact { Gives (λ v. v) result (list_verdict (context_of context.now) asked.now.owner.now entries.now
        asked.now.mapping.now asked.now.token.now asked.now.asked) }
    ensures memory { IsErrOf result SpecializeError.Memory → 0 < length entries.now }
{
    let null_sid = nobody();
    let mut progress = asked.begin();
    let mut size = ACL_HEADER_BYTES;
    for (i, entry) in entries.iter().enumerate() {
        let (next, entry_size) = after::<BOTH>(
            alloc,
            context,
            asked,
            progress,
            i + 1,
            entry,
            &null_sid,
        )?;
        progress = next;
        size += entry_size;
    }
    if size > MAX_ACL_BYTES {
        return Err(SpecializeError::Fault(SpecializeFault::TooLarge));
    }
    Ok(asked.verdict::<BOTH>(progress))
}

/// What the entries so far come to with the one of this number, and its size.
#[inline(always)]
fn after<const BOTH: bool>(
    alloc: Global,
    context: &Context<'_>,
    asked: &Asked<'_, Sid>,
    progress: CheckProgress,
    number: usize,
    entry: &WholeAce,
    null_sid: &Sid,
) -> Result<(CheckProgress, u64), SpecializeError>
    requires { null_sid.now ≡ nobody }
    ensures next { IfOk result (λ r. (e : Ace)
        × (numbered number (entry_for (context_of context.now) entry.now) ≡ Ok e)
        × ((seen : List Ace) → IsCheckProgress BOTH (asking (λ s. s) asked.now) seen progress
        → IsCheckProgress BOTH (asking (λ s. s) asked.now) (seen ++ e ∷ []) r.0)
        × (r.1 ≡ ace_size e) × (r.1 ≤ 76)) }
    ensures fault { (error : SpecializeError) → result ≡ Err error
        → Fails error (numbered number (entry_for (context_of context.now) entry.now)) }
{
    match entry_for(alloc, context, entry, null_sid) {
        Ok(part) => Ok((asked.after::<BOTH, Part<'_>>(progress, &part), part.size())),
        Err(error) => Err(at_number(number, error)),
    }
}
