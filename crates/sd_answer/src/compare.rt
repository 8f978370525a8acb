//! The lines of `compare`: rights that tokens gain or lose by a change of a descriptor, with one that does.
ghost use Rattle.std.specs.Prelude.{◌≡◌, ◌++◌, IfOk, OnOk, map};
ghost use Rattle.std.specs.Option.{option_to_list};
ghost use Rattle.sd_analysis.specs.Sufficient.{parts_of, restricting_of};
ghost use Rattle.sd_answer.specs.Compare.{change_line, gains_and_losses, marked, user_whom, witness_saying};
ghost use Rattle.sd_answer.specs.Lines.{values};
ghost use Rattle.sd_line.specs.declared.line.SidMark.TheVariants.{Restrict};

use crate::forms::{GAINED, LOST};
use crate::lines::{BitsLine, BitsWriter, Saying, Whom};
use sd_analysis::{Change, Comparison, Descendant, DescriptorRef, PassSids, Witness};
use sd_line::{Line, SidMark};
use sd_sid::Sid;
use std::alloc::{AllocError, Global};

/// Adds the lines of a comparison of these descriptors, of an object or of what is made in it, as `gained 0x2 by
/// S-1-5-32-545 S-1-5-32-546=deny`, the gains first, in the order of the lowest rights: none where nothing changes. The
/// only error is out of memory.
pub fn push_gains_and_losses(
    alloc: Global,
    out: &mut Vec<Line>,
    made: Option<Descendant>,
    old: &DescriptorRef<'_>,
    new: &DescriptorRef<'_>,
    comparison: &Comparison,
) -> Result<(), AllocError>
    ensures { OnOk result (out.new.items ≡ out.old.items ++ gains_and_losses made (parts_of old.now)
        (parts_of new.now) comparison.now.gained.items comparison.now.lost.items) }
{
    let changed = Changed { alloc, old, new };
    let gains = changed.change_lines(&comparison.gained)?;
    let losses = changed.change_lines(&comparison.lost)?;
    let (gained, lost) = (
        BitsWriter {
            alloc,
            form: GAINED,
            made,
        },
        BitsWriter {
            alloc,
            form: LOST,
            made,
        },
    );
    gained.push_lines(out, &gains)?;
    lost.push_lines(out, &losses)
}

/// A descriptor, and the one that takes its place.
#[derive(Clone, Copy)]
struct Changed<'a> {
    alloc: Global,
    old: &'a DescriptorRef<'a>,
    new: &'a DescriptorRef<'a>,
}

impl Changed<'_> {
    fn change_lines(&self, changes: &[Change]) -> Result<Vec<BitsLine>, AllocError>
        ensures { IfOk result (λ lines. values lines.items
            ≡ map (change_line (parts_of self.now.old.now) (parts_of self.now.new.now)) changes.now) }
    {
        let mut lines = Vec::new(self.alloc);
        for change in changes {
            let said = self.witness_saying(&change.witness)?;
            lines.push(BitsLine {
                mask: change.mask,
                said,
            })?;
        }
        Ok(lines)
    }

    /// The token beside the base, as ` by S-1-5-32-545 S-1-5-32-546=deny`.
    fn witness_saying(&self, witness: &Witness) -> Result<Saying, AllocError>
        ensures { IfOk result (λ said. said
            ≡ witness_saying (parts_of self.now.old.now) (parts_of self.now.new.now) witness.now) }
    {
        let whom = self.user_whom(&witness.first.allowed);
        let mut sids = Vec::new(self.alloc);
        push_option(&mut sids, &witness.first.denied, SidMark::Deny)?;
        push_second(&mut sids, &witness.second)?;
        Ok(Saying::new(whom, sids))
    }

    /// The user: everyone, where neither descriptor names it.
    fn user_whom(&self, user: &Sid) -> Whom
        ensures { result ≡ user_whom (parts_of self.now.old.now) (parts_of self.now.new.now) user.now }
    {
        if self.old.names(user) || self.new.names(user) {
            Whom::Sid(*user)
        } else {
            Whom::Everyone
        }
    }
}

/// Adds what the restricting SIDs are, where the token has any.
fn push_second(sids: &mut Vec<(Sid, SidMark)>, second: &Option<PassSids>) -> Result<(), AllocError>
    ensures { OnOk result (sids.new.items
        ≡ sids.old.items ++ marked Restrict (restricting_of second.now)) }
{
    match second {
        None => Ok(()),
        Some(pass) => {
            sids.push((pass.allowed, SidMark::Restrict))?;
            push_option(sids, &pass.denied, SidMark::Restrict)
        }
    }
}

fn push_option(
    sids: &mut Vec<(Sid, SidMark)>,
    sid: &Option<Sid>,
    mark: SidMark,
) -> Result<(), AllocError>
    ensures { OnOk result (sids.new.items ≡ sids.old.items ++ marked mark (option_to_list sid.now)) }
{
    if let Some(sid) = sid {
        sids.push((*sid, mark))?;
    }
    Ok(())
}
