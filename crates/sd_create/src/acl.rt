//! The SACL or the DACL of a new object: ComputeACL of [MS-DTYP] 2.5.3.4.

ghost use Rattle.std.specs.Prelude.{◌≡◌, ◌<◌, ◌+◌, ◌++◌, length, IfErr, IsErrOf, OnErr, OnOk};
ghost use Rattle.std.specs.List.{flat_map, list_any};
ghost use Rattle.sd_create.specs.Acl.{contains_inheritable, following, inherited, is_automatic, is_defaulted};
ghost use Rattle.sd_create.specs.Acl.{is_inheritable, is_object, is_of_parent, lent_acl, otherwise_of};
ghost use Rattle.sd_create.specs.Acl.{revision_of, sources_of, stays_protected};
ghost use Rattle.sd_create.specs.Create.{Gives, acl_of, acl_with, entries_of, source_count};
ghost use Rattle.sd_acl.specs.declared.descriptor.DaclOf.TheVariants.{List as Entries};
ghost use Rattle.sd_create.specs.Entry.{given_copies, new_of, own_copies};
ghost use Rattle.sd_whole.specs.Writing.{has_entries, is_without};

use crate::entry::{push_given, push_inherited, push_own};
use crate::fault::{CreateError, CreateFault};
use crate::object::NewObject;
use sd_whole::{ListRevision, WholeAce, WholeAcl, WholeList};
use std::alloc::{AllocError, Global};

/// What a list is made of.
#[derive(Drop)]
pub(crate) struct Sources<'a> {
    /// The entries of the parent's list.
    pub(crate) parent: &'a [WholeAce],
    /// The list that the creator gave.
    pub(crate) given: Option<&'a WholeAcl>,
    /// The list that the token has for objects without one.
    pub(crate) otherwise: Option<&'a WholeAcl>,
    /// The creator's list takes nothing from the parent.
    pub(crate) is_protected: bool,
    /// The parent's entries follow the creator's.
    pub(crate) is_automatic: bool,
    /// The creator's list counts only where the parent's passes on nothing.
    pub(crate) is_default: bool,
}

impl Sources<'_> {
    /// Whether the parent's list alone counts.
    fn is_of_parent(&self) -> bool
        ensures { result ≡ is_of_parent (sources_of self.now) }
    {
        contains_inheritable(self.parent) && (is_without(self.given) || self.is_default)
    }

    /// The control bit PD or PS.
    pub(crate) fn stays_protected(&self) -> bool
        ensures { result ≡ stays_protected (sources_of self.now) }
    {
        !self.is_of_parent() && self.is_protected
    }

    /// The control bit DI or SI.
    pub(crate) fn is_automatic(&self) -> bool
        ensures { result ≡ is_automatic (sources_of self.now) }
    {
        self.is_automatic
            && contains_inheritable(self.parent)
            && (self.is_of_parent() || (is_list(self.given) && !self.is_protected))
    }

    /// The control bit DD.
    pub(crate) fn is_defaulted(&self) -> bool
        ensures { result ≡ is_defaulted (sources_of self.now) }
    {
        !self.is_of_parent() && is_without(self.given) && !is_without(self.otherwise)
    }
}

/// Whether there is no SACL, or no DACL.
pub(crate) fn is_without(acl: Option<&WholeAcl>) -> bool
    ensures { result ≡ is_without (lent_acl acl.entry) }
{
    matches!(acl, None | Some(WholeAcl::Absent))
}

pub(crate) fn is_list(acl: Option<&WholeAcl>) -> bool
    ensures { result ≡ has_entries (lent_acl acl.entry) }
{
    matches!(acl, Some(WholeAcl::List(_)))
}

/// Whether objects or containers inherit one of the entries ([MS-DTYP] 2.5.3.4, ContainsInheritableACEs).
pub(crate) fn contains_inheritable(entries: &[WholeAce]) -> bool
    ensures { result ≡ contains_inheritable entries.now }
{
    entries.iter().any(is_inheritable)
}

fn is_inheritable(entry: &WholeAce) -> bool
    ensures { result ≡ is_inheritable entry.now }
{
    entry.flags().pass_on()
}

// ---- the entries

/// Appends what the object inherits of the parent's entries, in order.
pub(crate) fn push_all_inherited(
    alloc: Global,
    list: &mut Vec<WholeAce>,
    object: &NewObject<'_>,
    parent: &[WholeAce],
) -> Result<(), AllocError>
    ensures list { OnOk result (list.new.items ≡ list.old.items ++ inherited (new_of object.now) parent.now) }
    ensures memory { OnErr result (0 < length parent.now) }
{
    for entry in parent {
        push_inherited(alloc, list, object, entry)?;
    }
    Ok(())
}

/// Appends what the entries that the creator gave become, in order.
fn push_all_given(
    alloc: Global,
    list: &mut Vec<WholeAce>,
    object: &NewObject<'_>,
    given: &[WholeAce],
) -> Result<(), AllocError>
    ensures list { OnOk result (list.new.items
        ≡ list.old.items ++ flat_map (given_copies (new_of object.now)) given.now) }
    ensures memory { OnErr result (0 < length given.now) }
{
    for entry in given {
        push_given(alloc, list, object, entry)?;
    }
    Ok(())
}

/// Appends what the token's entries become, in order.
fn push_all_own(
    alloc: Global,
    list: &mut Vec<WholeAce>,
    object: &NewObject<'_>,
    own: &[WholeAce],
) -> Result<(), AllocError>
    ensures list { OnOk result (list.new.items ≡ list.old.items ++ flat_map (own_copies (new_of object.now)) own.now) }
    ensures memory { OnErr result (0 < length own.now) }
{
    for entry in own {
        push_own(alloc, list, object, entry)?;
    }
    Ok(())
}

/// Appends the parent's entries that follow what the creator gave.
fn push_following(
    alloc: Global,
    list: &mut Vec<WholeAce>,
    object: &NewObject<'_>,
    sources: &Sources<'_>,
) -> Result<(), AllocError>
    ensures list { OnOk result (list.new.items
        ≡ list.old.items ++ following (new_of object.now) (sources_of sources.now)) }
    ensures memory { OnErr result (0 < length (sources_of sources.now).parent) }
{
    if sources.is_automatic && !sources.is_protected {
        return push_all_inherited(alloc, list, object, sources.parent);
    }
    Ok(())
}

// ---- the list

/// The SACL or the DACL of the object.
pub(crate) fn acl_of(
    alloc: Global,
    object: &NewObject<'_>,
    sources: &Sources<'_>,
) -> Result<WholeAcl, CreateError>
    ensures exact { Gives (λ acl. acl) result (acl_of (new_of object.now) (sources_of sources.now)) }
    ensures memory { IsErrOf result CreateError.Memory → 0 < source_count (sources_of sources.now) }
{
    if sources.is_of_parent() {
        return of_parent(alloc, object, sources.parent);
    }
    match sources.given {
        None | Some(WholeAcl::Absent) => otherwise_of(alloc, object, sources.otherwise),
        Some(WholeAcl::Null) => Ok(WholeAcl::Null),
        Some(WholeAcl::List(given)) => of_given(alloc, object, sources, given.entries()),
    }
}

/// The list of what the object inherits.
pub(crate) fn of_parent(
    alloc: Global,
    object: &NewObject<'_>,
    parent: &[WholeAce],
) -> Result<WholeAcl, CreateError>
    ensures exact { Gives (λ acl. acl) result (acl_with (Entries (inherited (new_of object.now) parent.now))) }
    ensures memory { IsErrOf result CreateError.Memory → 0 < length parent.now }
{
    let mut entries = Vec::new(alloc);
    push_all_inherited(alloc, &mut entries, object, parent)?;
    listed(entries)
}

/// The list of what the creator gave, and what follows it.
fn of_given(
    alloc: Global,
    object: &NewObject<'_>,
    sources: &Sources<'_>,
    given: &[WholeAce],
) -> Result<WholeAcl, CreateError>
    ensures exact { Gives (λ acl. acl) result (acl_with (Entries (flat_map (given_copies (new_of object.now)) given.now
        ++ following (new_of object.now) (sources_of sources.now)))) }
    ensures memory { IsErrOf result CreateError.Memory → 0 < length given.now + length (sources_of sources.now).parent }
{
    let mut entries = Vec::new(alloc);
    push_all_given(alloc, &mut entries, object, given)?;
    push_following(alloc, &mut entries, object, sources)?;
    listed(entries)
}

/// What the token has for objects without a list.
fn otherwise_of(
    alloc: Global,
    object: &NewObject<'_>,
    otherwise: Option<&WholeAcl>,
) -> Result<WholeAcl, CreateError>
    ensures exact { Gives (λ acl. acl) result (acl_with (otherwise_of (new_of object.now) (lent_acl otherwise.entry))) }
    ensures memory { IsErrOf result CreateError.Memory → 0 < length (entries_of (lent_acl otherwise.entry)) }
{
    match otherwise {
        None | Some(WholeAcl::Absent) => Ok(WholeAcl::Absent),
        Some(WholeAcl::Null) => Ok(WholeAcl::Null),
        Some(WholeAcl::List(list)) => {
            let mut entries = Vec::new(alloc);
            push_all_own(alloc, &mut entries, object, list.entries())?;
            listed(entries)
        }
    }
}

/// The list of these entries.
pub(crate) fn listed(entries: Vec<WholeAce>) -> Result<WholeAcl, CreateError>
    ensures exact { Gives (λ acl. acl) result (acl_with (Entries entries.items)) }
    ensures fault { IfErr result (λ e. e ≡ CreateError.Fault CreateFault.TooLarge) }
{
    match WholeList::new(revision_of(&entries), entries) {
        Ok(list) => Ok(WholeAcl::List(list)),
        Err(_) => Err(CreateError::Fault(CreateFault::TooLarge)),
    }
}

/// AclRevision: 4 with an object entry, else 2 ([MS-DTYP] 2.4.5).
fn revision_of(entries: &[WholeAce]) -> ListRevision
    ensures { result ≡ revision_of entries.now }
{
    if has_object(entries) {
        ListRevision::DirectoryService
    } else {
        ListRevision::Standard
    }
}

/// Whether one of the entries has object types.
fn has_object(entries: &[WholeAce]) -> bool
    ensures { result ≡ list_any is_object entries.now }
{
    entries.iter().any(is_object)
}

fn is_object(entry: &WholeAce) -> bool
    ensures { result ≡ is_object entry.now }
{
    match entry {
        WholeAce::Typed(ace) => ace.kind.has_object_types(),
        WholeAce::Plain(_) | WholeAce::Opaque(_) => false,
    }
}
