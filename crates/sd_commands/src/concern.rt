//! The value of `--concern`: SIDs that are of concern to risks beside those of every list.
ghost use Rattle.std.specs.Prelude.{◌≡◌, ◌++◌, ◌∷◌, [], IfErr, IfNone, IfOk, IfSome, List, length, option_map};
ghost use Rattle.std.specs.Prelude.{string_bytes};
ghost use Rattle.sd_sid.specs.Sid.{SidValue, same_sid};
ghost use Rattle.sd_answer.specs.Word.{AreEach};
ghost use Rattle.sd_commands.specs.Concern.{GivesConcern, GivesNoConcern, IsConcernReason, IsFirstUnfit, IsSidOfToken};
ghost use Rattle.sd_commands.specs.Concern.{IsUnfit, group_server, is_placeholder, owner_server, sids_of};
ghost use Rattle.sd_commands.specs.Mapping.{between_commas};

use crate::diagnostic::{fault_text, text_at_byte};
use crate::mapping::cut;
use sd_inheritance::{is_creator_group, is_creator_owner};
use sd_sid::Sid;
use sd_text::{Aliases, TextError, read_sid_text_in};
use std::alloc::{AllocError, Global};

/// The most SIDs: they stand in `Settings`, and have no memory of their own.
pub const MAX_CONCERN: usize = 16;

/// SIDs that are of concern: as many of the first as `count` says.
#[derive(Clone, Copy)]
pub struct Concern {
    sids: [Sid; MAX_CONCERN],
    count: usize,
}

impl Concern {
    /// No SID.
    fn none() -> Concern
        ensures { sids_of result ≡ [] }
    {
        match Sid::new(0, &[0]) {
            Ok(nobody) => Concern {
                sids: [nobody; MAX_CONCERN],
                count: 0,
            },
            Err(_) => unreachable!(),
        }
    }

    /// The SIDs, in order.
    pub(crate) fn sids(&self) -> &[Sid]
        ensures { result.now ≡ sids_of self.now }
    {
        &self.sids[..self.count.min(MAX_CONCERN)]
    }

    /// These and one more, which the text spells, if a token can have it.
    fn with_text(self, known: Aliases, text: &str) -> Option<Concern>
        ensures some { IfSome result (λ more. (sid : SidValue) × IsSidOfToken known text.now sid
            × (sids_of more ≡ sids_of self ++ sid ∷ [])) }
        ensures none { IfNone result (IsUnfit known (sids_of self) text.now) }
    {
        match read_sid_text_in(known, text) {
            Ok(sid) if is_placeholder(&sid) => None,
            Ok(sid) => self.with(sid),
            Err(_) => None,
        }
    }

    /// These and one more, if there are fewer than 16.
    fn with(self, sid: Sid) -> Option<Concern>
        ensures some { IfSome result (λ more. sids_of more ≡ sids_of self ++ sid ∷ []) }
        ensures none { IfNone result (length (sids_of self) ≡ 16) }
    {
        if self.count >= MAX_CONCERN {
            return None;
        }
        let mut sids = self.sids;
        sids[self.count] = sid;
        Some(Concern {
            sids,
            count: self.count + 1,
        })
    }

    /// These and those that the text has between commas, or of them the first that is no SID of a token, or one too
    /// many.
    fn with_texts<'a>(self, known: Aliases, text: &'a str) -> Result<Concern, &'a str>
        ensures all { IfOk result (λ all. (more : List SidValue) × (sids_of all ≡ sids_of self ++ more)
            × AreEach (IsSidOfToken known) (between_commas text.entry.now) more) }
        ensures unfit { IfErr result
            (λ part. IsFirstUnfit known (sids_of self) (between_commas text.entry.now) part.now) }
    {
        match cut(text) {
            None => match self.with_text(known, text) {
                Some(all) => Ok(all),
                None => Err(text),
            },
            Some((part, behind)) => match self.with_text(known, part) {
                Some(more) => more.with_texts(known, behind),
                None => Err(part),
            },
        }
    }
}

/// The SIDs that the value of `--concern` has between commas, none without the option; or of these texts the first that
/// is no SID ([MS-DTYP] 2.4.2.1), or one that no token has (2.4.2.4), or one more than 16.
pub fn concern_given<'a>(known: Aliases, text: Option<&'a str>) -> Result<Concern, &'a str>
    ensures given { IfOk result
        (λ concern. GivesConcern known (option_map (λ text. text.now) text.entry) (sids_of concern)) }
    ensures unfit { IfErr result
        (λ part. GivesNoConcern known (option_map (λ text. text.now) text.entry) part.now) }
{
    match text {
        None => Ok(Concern::none()),
        Some(text) => Concern::none().with_texts(known, text),
    }
}

/// Why this part of the value of `--concern` isn't taken: the first fault of its SID ([MS-DTYP] 2.4.2.1), or that it is
/// no user's and no group's (2.4.2.4), or else that it is one more than 16. With `points`, the text stands below its
/// fault. The only error is out of memory.
pub fn concern_reason(
    alloc: Global,
    points: bool,
    known: Aliases,
    text: &str,
) -> Result<String, AllocError>
    ensures { IfOk result (λ reason. IsConcernReason points known text.now (string_bytes reason)) }
{
    match read_sid_text_in(known, text) {
        Ok(sid) if is_placeholder(&sid) => text_at_byte(
            alloc,
            points,
            text,
            "no SID of a user or a group",
            0,
        ),
        Ok(_) => String::from_str(alloc, "one SID too many: at most 16"),
        Err(TextError::Fault { fault, place }) => fault_text(alloc, points, text, fault, place),
        Err(TextError::Memory) => Err(AllocError),
    }
}

/// Whether the SID stands for whoever creates or owns an object, or for the server of one of these, S-1-3-0 to S-1-3-4
/// ([MS-DTYP] 2.4.2.4): no token has it.
pub fn is_placeholder(sid: &Sid) -> bool
    ensures { result ≡ is_placeholder sid.now }
{
    is_creator_owner(sid)
        || is_creator_group(sid)
        || is_owner_server(sid)
        || is_group_server(sid)
        || sid.is_owner_rights()
}

fn is_owner_server(sid: &Sid) -> bool
    ensures { result ≡ same_sid sid.now owner_server }
{
    sid.authority() == 3 && matches!(sid.subs(), [2])
}

fn is_group_server(sid: &Sid) -> bool
    ensures { result ≡ same_sid sid.now group_server }
{
    sid.authority() == 3 && matches!(sid.subs(), [3])
}
