//! Who asks.

ghost use Rattle.std.specs.Prelude.{◌≡◌, false, not, ◌||◌, ◌&&◌, [], IfSome};
ghost use Rattle.sd_sid.specs.Sid.{same_sid, owner_rights};
ghost use Rattle.sd_acl.specs.declared.ace.AceKind.{AceKind};
ghost use Rattle.sd_check.specs.Token.{stands_for, a_group_stands_for, counts, is_restricted, is_restricting};

use crate::entry::Trustee;
use crate::index::Index;
use sd_acl::AceKind;
use sd_sid::Sid;
use std::marker::Model;

/// How the user or a group of a token counts: Windows says it by SE_GROUP_ENABLED and SE_GROUP_USE_FOR_DENY_ONLY.
#[derive(Clone, Copy, Debug, PartialEq, Eq)]
pub enum GroupState {
    /// For allow and deny entries.
    Enabled,
    /// For deny entries alone.
    DenyOnly,
    /// For nothing.
    Disabled,
}

/// The privileges that a check looks at.
#[derive(Clone, Copy, Debug, PartialEq, Eq)]
pub struct Privileges {
    /// SeSecurityPrivilege: grants ACCESS_SYSTEM_SECURITY.
    pub security: bool,
    /// SeTakeOwnershipPrivilege: grants WRITE_OWNER.
    pub take_ownership: bool,
}

impl Default for Privileges {
    ghost use Rattle.sd_check.specs.Token.{no_privileges};

    ghost is_default = { λ privileges. privileges ≡ no_privileges };

    /// No privilege.
    fn default() -> Privileges {
        Privileges {
            security: false,
            take_ownership: false,
        }
    }
}

/// Who asks ([MS-DTYP] 2.5.2): a user, its groups as they were given, its privileges and, where it is restricted, the
/// SIDs for which access is asked a second time.
#[derive(Debug, Drop)]
pub struct Token {
    user: (Sid, GroupState),
    groups: Vec<(Sid, GroupState)>,
    privileges: Privileges,
    index: Index,
    // (last, so that what every check looks at is close together)
    restricting: Vec<Sid>,
}

impl Model for Token {
    ghost use Rattle.sd_check.specs.Token.{TokenValue};

    ghost Value = { TokenValue };

    ghost use Rattle.std.specs.Prelude.{length};
    ghost use Rattle.sd_check.specs.Index.{IsIndex, IsMarked, MarksEach};

    ghost view = { λ t. record {
      user = t.user.0;
      user_state = t.user.1;
      groups = t.groups.items;
      restricting = t.restricting.items;
      privileges = t.privileges;
    } };

    ghost invariant = { λ t. IsIndex t.index.heads t.index.nexts t.groups.items (length t.groups.items)
        × IsMarked t.index.heads t.index.nexts t.user.0
        × MarksEach t.index.heads t.index.nexts t.groups.items t.restricting.items };
}

impl GroupState {
    /// Whether what is in this state counts for an entry of the kind.
    pub(crate) fn counts(self, kind: AceKind) -> bool
        ensures { result ≡ counts kind self }
    {
        match self {
            GroupState::Enabled => true,
            GroupState::DenyOnly => kind == AceKind::Deny,
            GroupState::Disabled => false,
        }
    }
}

impl Token {
    /// The token of a user, groups and privileges, which nothing restricts. A SID may stand in the groups more than
    /// once; each place counts. Takes no memory.
    pub fn new(user: Sid, groups: Vec<(Sid, GroupState)>, privileges: Privileges) -> Token
        ensures { result ≡ record {
          user = user;
          user_state = GroupState.Enabled;
          groups = groups.items;
          restricting = [];
          privileges = privileges;
        } }
    {
        let nobody = Vec::new(*groups.allocator());
        Token::restricted(user, groups, nobody, privileges)
    }

    /// The token of a user, groups and privileges, restricted to what the restricting SIDs are granted too, by a second
    /// pass over the list ([MS-DTYP] 2.5.2, a restricted token). Without restricting SIDs nothing restricts it. A SID
    /// may stand among them more than once. Takes no memory.
    pub fn restricted(
        user: Sid,
        groups: Vec<(Sid, GroupState)>,
        restricting: Vec<Sid>,
        privileges: Privileges,
    ) -> Token
        ensures { result ≡ record {
          user = user;
          user_state = GroupState.Enabled;
          groups = groups.items;
          restricting = restricting.items;
          privileges = privileges;
        } }
    {
        let index = Index::new(&user, &groups, &restricting);
        Token {
            user: (user, GroupState::Enabled),
            groups,
            privileges,
            index,
            restricting,
        }
    }

    /// The token with a user that counts for denies alone, as of one that CreateRestrictedToken's SidsToDisable names.
    /// Takes no memory.
    pub fn of_deny_only_user(self) -> Token
        ensures { result ≡ record self { user_state = GroupState.DenyOnly } }
    {
        let (user, _state) = self.user;
        Token {
            user: (user, GroupState::DenyOnly),
            groups: self.groups,
            privileges: self.privileges,
            index: self.index,
            restricting: self.restricting,
        }
    }

    pub(crate) fn privileges(&self) -> Privileges
        ensures { result ≡ self.now.privileges }
    {
        self.privileges
    }

    /// Whether the token may stand for the SID at all, in either pass, or the SID is OWNER RIGHTS. Where not, no entry
    /// of either kind applies, nor does one limit the owner.
    #[inline(always)]
    pub(crate) fn may_matter<S: Trustee>(&self, sid: &S) -> bool
        ensures first { result ≡ false → (kind : AceKind) → stands_for self.now kind (S.sid sid.now) ≡ false }
        ensures again { result ≡ false → is_restricting self.now (S.sid sid.now) ≡ false }
        ensures owner_rights { result ≡ false → same_sid (S.sid sid.now) owner_rights ≡ false }
    {
        self.index.may_hold(sid)
    }

    /// Whether restricting SIDs stand in the token.
    #[inline]
    pub fn is_restricted(&self) -> bool
        ensures { result ≡ is_restricted self.now }
    {
        !self.restricting.is_empty()
    }

    /// Whether the SID is a restricting one.
    #[inline(never)]
    pub(crate) fn is_restricting(&self, sid: &Sid) -> bool
        ensures { result ≡ is_restricting self.now sid.now }
    {
        self.restricting.iter().any(|one| one.is(sid))
    }

    /// Whether the user or a group has the SID and counts for an entry of the kind, if one look shows this, and that
    /// the SID is neither OWNER RIGHTS nor a restricting one; else `None`.
    #[inline(always)]
    pub(crate) fn has_in_one_look(&self, kind: AceKind, sid: &Sid) -> Option<bool>
        ensures { IfSome result (λ stands. (stands_for self.now kind sid.now ≡ stands)
            × (is_restricting self.now sid.now ≡ false) × (same_sid sid.now owner_rights ≡ false)) }
    {
        self.index
            .stands_for_in_one_look(&self.user, &self.groups, kind, sid)
    }

    /// Whether the user or a group has the SID and counts for an entry of the kind.
    #[inline(never)]
    pub(crate) fn has(&self, kind: AceKind, sid: &Sid) -> bool
        ensures { result ≡ stands_for self.now kind sid.now }
    {
        self.index.stands_for(&self.user, &self.groups, kind, sid)
    }
}
