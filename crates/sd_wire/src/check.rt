//! The check over bytes.

ghost use Rattle.std.specs.Prelude.{◌≡◌, ◌≤◌, length, None, true};
ghost use Rattle.sd_check.specs.Check.{verdict};
ghost use Rattle.sd_check.specs.Token.{is_restricted};
ghost use Rattle.sd_wire.specs.Reading.{entries_read};
ghost use Rattle.sd_wire.specs.Checked.{checked, entries_checked};

use crate::{DaclPlace, EntryPlaces, Parts, WireFault, read_entry, read_parts};
use sd_acl::AceRef;
use sd_check::{Question, Token, Verdict};
use sd_sid::{GenericMapping, Mask, SidRef};

/// The verdict on a request ([MS-DTYP] 2.5.3.2), for the descriptor that the bytes hold, or the first test that they
/// don't pass ([MS-DTYP] 2.4.6): what `read_descriptor` and then `check` answer where there is memory. Takes none.
// (in a call the walk has its registers to itself)
#[inline(never)]
pub fn check_bytes(
    bytes: &[u8],
    mapping: &GenericMapping,
    token: &Token,
    asked: Mask,
) -> Result<Verdict, WireFault>
    ensures { result ≡ checked bytes.now mapping.now token.now asked }
{
    let Parts { owner, dacl } = read_parts(bytes)?;
    let question = Question {
        owner: &owner,
        mapping,
        token,
        asked,
    };
    match dacl {
        DaclPlace::Absent => Ok(check_no_list(&question)),
        DaclPlace::Null => Ok(check_no_list(&question)),
        DaclPlace::List(entries) => {
            if token.is_restricted() {
                check_restricted(bytes, entries, &question)
            } else {
                check_entries::<false>(bytes, entries, &question)
            }
        }
    }
}

// Most descriptors have a list, and few tokens are restricted: what either comes to stays out of the others' way.

#[inline(never)]
#[tactic(auto, using(std::proofs::lemmas::Iterator::Adapters::option_map_id))]
fn check_no_list(question: &Question<'_, SidRef<'_>>) -> Verdict
    ensures { result ≡ verdict question.now.owner.now None question.now.mapping.now question.now.token.now
        question.now.asked }
{
    question.verdict_without_a_list()
}

#[inline(never)]
fn check_restricted(
    bytes: &[u8],
    entries: EntryPlaces,
    question: &Question<'_, SidRef<'_>>,
) -> Result<Verdict, WireFault>
    requires place { entries.place ≤ entries.end }
    requires end { entries.end ≤ length bytes.now }
    requires both { is_restricted question.now.token.now ≡ true }
    ensures { result ≡ entries_checked (entries_read bytes.now entries.place entries.end entries.count)
        question.now.owner.now question.now.mapping.now question.now.token.now question.now.asked }
{
    check_entries::<true>(bytes, entries, question)
}

/// The answer to the question, for a list whose entries are there, or the first test that one of them doesn't pass.
/// The entries after the one that decides the last bit are tested too.
#[inline(always)]
fn check_entries<const BOTH: bool>(
    bytes: &[u8],
    entries: EntryPlaces,
    question: &Question<'_, SidRef<'_>>,
) -> Result<Verdict, WireFault>
    requires place { entries.place ≤ entries.end }
    requires end { entries.end ≤ length bytes.now }
    requires both { BOTH ≡ is_restricted question.now.token.now }
    ensures { result ≡ entries_checked (entries_read bytes.now entries.place entries.end entries.count)
        question.now.owner.now question.now.mapping.now question.now.token.now question.now.asked }
{
    let mut progress = question.begin();
    let mut rest = &bytes[entries.place..entries.end];
    for _ in 0..entries.count {
        let (entry, size) = read_entry(rest, 0, rest.len())?;
        progress = question.after::<BOTH, AceRef<'_>>(progress, &entry);
        rest = &rest[size..];
    }
    Ok(question.verdict::<BOTH>(progress))
}
