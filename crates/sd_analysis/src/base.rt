//! What all tokens of an analysis have.

ghost use Rattle.std.specs.Prelude.{◌≡◌, ◌&&◌, true, []};
ghost use Rattle.sd_sid.specs.Sid.{same_sid};
ghost use Rattle.sd_check.specs.Token.{a_group_stands_for, counts};

use sd_acl::AceKind;
use sd_check::GroupState;
use sd_sid::Sid;
use std::marker::Model;

/// The groups that every token of an analysis has, each in its state at least ([MS-DTYP] 2.5.2): one for denies alone
/// may be enabled in a token. A SID may stand in it more than once; where one of its places is enabled, it is. A
/// disabled group counts for nothing. Without groups it is every token's.
#[derive(Drop)]
pub struct Base<'a> {
    pub groups: &'a [(Sid, GroupState)],
}

impl<'a> Model for Base<'a> {
    ghost use Rattle.std.specs.Prelude.{List};
    ghost use Rattle.sd_sid.specs.Sid.{SidValue};
    ghost use Rattle.sd_check.specs.declared.token.GroupState.{GroupState};

    ghost Value = { List (SidValue × GroupState) };

    ghost view = { λ b. b.groups.now };
}

impl Base<'_> {
    /// Whether each token with the base stands for the SID in entries of the kind ([MS-DTYP] 2.5.3.1).
    pub fn stands_for(&self, kind: AceKind, sid: &Sid) -> bool
        ensures { result ≡ a_group_stands_for self.now kind sid.now }
    {
        self.groups
            .iter()
            .any(|group| group.0.is(sid) && counts(group.1, kind))
    }

    /// Whether it has no group.
    pub(crate) fn is_empty(&self) -> bool
        ensures { result ≡ true → self.now ≡ [] }
    {
        self.groups.is_empty()
    }
}

/// Whether a group in the state counts for entries of the kind.
fn counts(state: GroupState, kind: AceKind) -> bool
    ensures { result ≡ counts kind state }
{
    match state {
        GroupState::Enabled => true,
        GroupState::DenyOnly => !kind.is_allow(),
        GroupState::Disabled => false,
    }
}
