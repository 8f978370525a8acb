//! The rights that `who` is asked about, and its lines: rights, and whom they are granted to.
ghost use Rattle.std.specs.Prelude.{◌≡◌, ◌++◌, IfOk, OnOk};
ghost use Rattle.sd_answer.specs.Lines.{values};
ghost use Rattle.sd_answer.specs.Who.{alternative_saying, holder_whom, made_who_lines, rights_asked, who_lines};
ghost use Rattle.sd_answer.specs.Who.{plain_sids, with_access};

use crate::forms::WHO;
use crate::lines::{BitsLine, BitsWriter, Saying, Whom, join};
use sd_analysis::{Access, Alternative, Descendant, Holder};
use sd_check::MAXIMUM_PLACE;
use sd_line::{Line, SidMark};
use sd_sid::{GenericMapping, Mask, OBJECT_RIGHTS, Sid};
use std::alloc::{AllocError, Global};

/// The rights that are asked about: those of the mask, generic ones mapped, or all of an object where it has
/// MAXIMUM_ALLOWED ([MS-DTYP] 2.4.3).
pub fn rights_asked(mapping: &GenericMapping, asked: Mask) -> Mask
    ensures { result ≡ rights_asked mapping.now asked }
{
    if asked.holds(MAXIMUM_PLACE) {
        OBJECT_RIGHTS
    } else {
        mapping.map(asked)
    }
}

/// The lines of accesses, as `0x120000 to S-1-1-0 unless S-1-5-32-546`: rights with the same alternative are in one
/// line, and the lines are in the order of their lowest rights. The only error is out of memory.
pub fn who_lines(alloc: Global, accesses: &[Access]) -> Result<Vec<Line>, AllocError>
    ensures { IfOk result (λ lines. lines.items ≡ who_lines accesses.now) }
{
    let mut lines = Vec::new(alloc);
    push_who(alloc, &mut lines, None, accesses)?;
    Ok(lines)
}

/// Adds the lines of accesses, to the object or to what is made in it.
pub(crate) fn push_who(
    alloc: Global,
    out: &mut Vec<Line>,
    made: Option<Descendant>,
    accesses: &[Access],
) -> Result<(), AllocError>
    ensures { OnOk result (out.new.items ≡ out.old.items ++ made_who_lines made accesses.now) }
{
    let mut lines = Vec::new(alloc);
    for access in accesses {
        join_access(alloc, &mut lines, access)?;
    }
    let writer = BitsWriter {
        alloc,
        form: WHO,
        made,
    };
    writer.push_lines(out, &lines)
}

/// Adds the rights of an access, to the line of each alternative.
fn join_access(alloc: Global, lines: &mut Vec<BitsLine>, access: &Access) -> Result<(), AllocError>
    ensures { OnOk result (values lines.new.items ≡ with_access (values lines.old.items) access.now) }
{
    if access.alternatives.is_empty() {
        return join(
            lines,
            access.mask,
            Saying::new(Whom::Nobody, Vec::new(alloc)),
        );
    }
    for alternative in &access.alternatives {
        let said = alternative_saying(alloc, &access.denied, alternative)?;
        join(lines, access.mask, said)?;
    }
    Ok(())
}

/// Whom an alternative is for, and unless which SIDs are in the token.
fn alternative_saying(
    alloc: Global,
    denied: &[Sid],
    alternative: &Alternative,
) -> Result<Saying, AllocError>
    ensures { IfOk result (λ said. said ≡ alternative_saying denied.now alternative.now) }
{
    let denied = denied.get(..alternative.unless).unwrap_or(denied);
    let unless = plain_sids(alloc, denied)?;
    Ok(Saying::new(holder_whom(&alternative.holder), unless))
}

fn holder_whom(holder: &Holder) -> Whom
    ensures { result ≡ holder_whom holder.now }
{
    match holder {
        Holder::Everyone => Whom::Everyone,
        Holder::Sid(sid) => Whom::Sid(*sid),
        Holder::Owner(sid) => Whom::Owner(*sid),
    }
}

fn plain_sids(alloc: Global, sids: &[Sid]) -> Result<Vec<(Sid, SidMark)>, AllocError>
    ensures { IfOk result (λ marked. marked.items ≡ plain_sids sids.now) }
{
    let mut marked = Vec::new(alloc);
    for sid in sids {
        marked.push((*sid, SidMark::Plain))?;
    }
    Ok(marked)
}
