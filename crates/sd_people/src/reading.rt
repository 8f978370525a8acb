//! What `why` reads of a plain descriptor and a mask: once for all users without words.
ghost use Rattle.std.specs.Prelude.{◌≡◌, ◌++◌, IfOk, IfSome, OnOk, is_some, map};
ghost use Rattle.std.specs.List.{AllByRecursion};
ghost use Rattle.sd_sid.specs.Sid.{IsSid};
ghost use Rattle.sd_commands.specs.Answer.{answer_of};
ghost use Rattle.sd_commands.specs.Required.{missing_dacl};
ghost use Rattle.sd_people.specs.Reading.{IsReadingOf, SaysWhy, enabled, token_with};

use sd_acl::{Dacl, Descriptor};
use sd_answer::why_lines;
use sd_check::{GroupState, Privileges, Token, check};
use sd_commands::{Answer, Settings, outcome_of};
use sd_line::{read_mask_in, requested};
use sd_sid::{Mask, Sid};
use sd_text::read_sddl_in;
use std::alloc::{AllocError, Global};

/// A plain descriptor and a mask, as `why` reads them.
#[derive(Drop)]
pub(crate) struct Reading {
    pub(crate) descriptor: Descriptor,
    asked: Mask,
}

/// What is read for what is asked of each user: of a change the second is of the new descriptor. None where each user
/// is asked by texts.
#[derive(Drop)]
pub(crate) struct Readings {
    pub(crate) first: Option<Reading>,
    pub(crate) second: Option<Reading>,
}

impl Reading {
    /// What `why` reads of a text and a mask ([MS-DTYP] 2.5.1.1). None under `--whole` or a logon, and where it takes
    /// the text or the mask for a fault.
    pub(crate) fn of(
        alloc: Global,
        settings: &Settings,
        text: &str,
        mask: &str,
    ) -> Result<Option<Reading>, AllocError>
        ensures { IfOk result (λ found. IfSome found (IsReadingOf settings.now text.now mask.now)) }
    {
        if settings.whole || settings.logon.is_some() {
            return Ok(None);
        }
        let Ok(asked) = read_mask_in(settings.spelling, mask) else {
            return Ok(None);
        };
        let Ok(descriptor) = read_sddl_in(alloc, settings.aliases, text) else {
            return Ok(None);
        };
        if lacks_list(settings.require_dacl, &descriptor.dacl) {
            return Ok(None);
        }
        Ok(Some(Reading { descriptor, asked }))
    }

    /// What `why` answers of the token ([MS-DTYP] 2.5.3.2).
    pub(crate) fn answer(
        &self,
        alloc: Global,
        settings: &Settings,
        token: &Token,
    ) -> Result<Answer, AllocError>
        ensures { IfOk result (λ answer. SaysWhy settings.now self.now token.now (answer_of answer)) }
    {
        let mapping = &settings.mapping;
        let asked = requested(settings.kind, self.asked);
        let verdict = check(&self.descriptor, mapping, token, asked);
        let lines = why_lines(alloc, mapping, &self.descriptor, token, asked)?;
        let (told, outcome) = (String::new(alloc), outcome_of(&verdict));
        Ok(Answer {
            lines,
            told,
            outcome,
        })
    }
}

/// Whether the DACL lacks the list that is required.
fn lacks_list(is_required: bool, dacl: &Dacl) -> bool
    ensures { result ≡ is_some (missing_dacl is_required dacl.now) }
{
    match dacl {
        Dacl::Absent if is_required => true,
        Dacl::Null if is_required => true,
        _ => false,
    }
}

/// The token of a user with the groups of its logon and those that it has by the accounts, all enabled ([MS-DTYP]
/// 2.5.2). The only error is out of memory.
pub(crate) fn token_with(
    alloc: Global,
    user: &Sid,
    logged: &[Sid],
    groups: &[Sid],
) -> Result<Token, AllocError>
    ensures token { IfOk result (λ token. token ≡ token_with user.now (logged.now ++ groups.now)) }
    ensures user { IsSid user.now }
    ensures groups { IfOk result (λ _. AllByRecursion IsSid (logged.now ++ groups.now)) }
{
    // (the authority is of no use here: that it can be read says that it is a SID)
    let _authority = user.authority();
    let mut all = Vec::with_capacity(alloc, logged.len().saturating_add(groups.len()))?;
    push_enabled(&mut all, logged)?;
    push_enabled(&mut all, groups)?;
    Ok(Token::new(*user, all, Privileges::default()))
}

/// Adds groups, enabled.
fn push_enabled(all: &mut Vec<(Sid, GroupState)>, sids: &[Sid]) -> Result<(), AllocError>
    ensures all { OnOk result (all.new.items ≡ all.old.items ++ map enabled sids.now) }
    ensures known { OnOk result (AllByRecursion IsSid sids.now) }
{
    for sid in sids {
        // (as above)
        let _authority = sid.authority();
        all.push((*sid, GroupState::Enabled))?;
    }
    Ok(())
}
