//! What a descriptor is made of.

use crate::flags::AutoInherit;
use sd_inheritance::NodeKind;
use sd_sid::{GenericMapping, Sid};
use sd_whole::{Guid, WholeAcl, WholeDescriptor};

/// The token of who creates an object ([MS-DTYP] 2.5.2), as far as creation looks at it.
#[derive(Drop)]
pub struct CreatorToken<'a> {
    /// The owner of what it creates, where nothing else says who that is: Token.SIDs\[Token.OwnerIndex\].
    pub owner: Sid,
    /// The group of what it creates, where nothing else says which that is: Token.SIDs\[Token.PrimaryGroup\].
    pub group: Sid,
    /// The DACL of what it creates, where there is no other: Token.DefaultDACL. An absent or a null one grants all.
    pub dacl: &'a WholeAcl,
    /// The SIDs that it may make the owner: the user's, unless that counts for denies alone, and those of enabled
    /// groups that may be owners (SE_GROUP_OWNER).
    pub owners: &'a [Sid],
    /// SeRestorePrivilege: it may make any SID the owner.
    pub restore: bool,
}

/// What the descriptor of a new object is made of ([MS-DTYP] 2.5.3.4.1).
#[derive(Drop)]
pub struct Creation<'a> {
    /// The descriptor of the container that the object is made in.
    pub parent: Option<&'a WholeDescriptor>,
    /// What the creator gave: its owner, group and lists, where they are there.
    pub creator: Option<&'a WholeDescriptor>,
    pub kind: NodeKind,
    /// The object's classes: who inherits an entry with an InheritedObjectType depends on them.
    pub types: &'a [Guid],
    pub flags: AutoInherit,
    pub token: &'a CreatorToken<'a>,
    /// What generic rights are for the object.
    pub mapping: &'a GenericMapping,
}
