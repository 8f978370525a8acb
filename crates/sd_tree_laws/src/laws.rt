//! What follows from the rules of the tree.

ghost use Rattle.sd_tree_laws.specs.Laws.{DaclIsOfParent, RootInheritsNothing, LawfulTreesAreClosed};
ghost use Rattle.sd_tree_laws.specs.Laws.{OwnerChangesOneNode, GroupChangesOneNode, KeepingANullChangesNone};
ghost use Rattle.sd_tree_laws.specs.Laws.{SameTreeAnswersAlike, EditStaysBelow};
ghost use Rattle.sd_tree_laws.specs.Laws.{MoveCarriesTheSubtree, MoveBackUndoesIt};
ghost use Rattle.sd_tree_laws.specs.Laws.{ProtectedKeepLists, NullKeepLists, RenamedKeepLists, ProtectedStandsAlone};
ghost use Rattle.sd_tree_laws.specs.Laws.{UnmarkedEntryStays, NoPropagateGoesOneLevel, NothingWaitsInAnObject};
ghost use Rattle.sd_tree_laws.specs.Laws.{InheritedHasId, OwnHasNoId, WithoutIdIsOwn, EveryListIsCanonical};
ghost use Rattle.sd_tree_laws.specs.Laws.{StoredInherits, StoredKeeps};
ghost use Rattle.sd_tree_laws.specs.Laws.{OrderGrantsNothing, OrderKeepsOwnersLimit, KeepingLetsNobodyIn};
ghost use Rattle.sd_tree_laws.specs.Laws.{KeepingGrantsNoNewRequest, ProtectingFirstKeepsLists};
ghost use Rattle.sd_tree_laws.specs.Laws.{ProtectingFirstLetsNobodyIn, ProtectingFirstGrantsNoNewRequest};

/// The DACL of a node is its own entries and what its parent's DACL, in the same tree, passes down; the root's is its
/// own entries alone ([MS-DTYP] 2.5.3.4).
pub fn dacl_is_of_parent()
    ensures parent { DaclIsOfParent }
    ensures root { RootInheritsNothing }
{}

/// After a valid journal the root and the parent of each node exist and are containers.
pub fn lawful_trees_are_closed()
    ensures { LawfulTreesAreClosed }
{}

/// Two openings with one mapping and the same limits, and journals that make one tree: each answer, descriptor and kind
/// is the same, and so is each refusal but `JournalFull`.
pub fn same_tree_answers_alike()
    ensures { SameTreeAnswersAlike }
{}

/// An edit changes the descriptor of no node but the edited one and those below it; a move, of none but those at and
/// below its source and its target.
pub fn edit_stays_below()
    ensures { EditStaysBelow }
{}

/// After an accepted move the nodes at and below the source are at and below the target, with their kinds, owners,
/// groups and own lists; there is none at the source or below it; each other node has what it had. What the moved nodes
/// inherit is what `dacl_is_of_parent` says of the tree after the move ([MS-DTYP] 2.5.3.4).
pub fn move_carries_the_subtree()
    ensures { MoveCarriesTheSubtree }
{}

/// A move there and a move back, both accepted, leave the kind, the owner, the group, the own list and the DACL of each
/// node as they were.
pub fn move_back_undoes_it()
    ensures { MoveBackUndoesIt }
{}

/// An accepted move changes no DACL at or below a moved node that is protected (control bit PD), or whose DACL is null
/// ([MS-DTYP] 2.4.6); and none at all within one parent, where it only renames.
pub fn move_keeps_lists()
    ensures protected { ProtectedKeepLists }
    ensures null { NullKeepLists }
    ensures renamed { RenamedKeepLists }
{}

/// SetOwner and SetGroup change the DACL of no node but the edited one: what CREATOR OWNER and CREATOR GROUP became in
/// it isn't inherited further ([MS-DTYP] 2.5.3.4). Nor does ProtectKeeping of a node whose DACL is null.
pub fn trustee_stays_in_the_node()
    ensures owner { OwnerChangesOneNode }
    ensures group { GroupChangesOneNode }
    ensures null { KeepingANullChangesNone }
{}

/// The DACL of a protected node (control bit PD), and each DACL below it, is the same whatever is above the node
/// ([MS-DTYP] 2.4.6).
pub fn protected_stands_alone()
    ensures { ProtectedStandsAlone }
{}

/// An entry with neither OI nor CI never leaves its node ([MS-DTYP] 2.4.4.1).
pub fn unmarked_entry_stays()
    ensures { UnmarkedEntryStays }
{}

/// An entry with NP is inherited by children and no further: what a child has of it passes nothing down
/// ([MS-DTYP] 2.4.4.1, NO_PROPAGATE_INHERIT_ACE).
pub fn no_propagate_goes_one_level()
    ensures { NoPropagateGoesOneLevel }
{}

/// No inherited entry of an object is there for children: none has OI, CI, NP or IO.
pub fn nothing_waits_in_an_object()
    ensures { NothingWaitsInAnObject }
{}

/// Each entry that a node inherits has the flag ID, and after a valid journal none of a node's own entries has it: its
/// own entries are those of its DACL without the flag ([MS-DTYP] 2.4.4.1, INHERITED_ACE).
pub fn inherited_has_id()
    ensures inherited { InheritedHasId }
    ensures own { OwnHasNoId }
    ensures explicit { WithoutIdIsOwn }
{}

/// A node that was stored keeps what it had inherited elsewhere while its parent offers what was offered there, and
/// otherwise has what it would have if it hadn't been stored ([MS-DTYP] 2.5.3.4).
pub fn stored_keeps_or_inherits()
    ensures keeps { StoredKeeps }
    ensures inherits { StoredInherits }
{}

/// After a valid journal each node's DACL is in canonical order: the explicit entries precede the inherited ones, and
/// the explicit denies the explicit allows.
pub fn every_list_is_canonical()
    ensures { EveryListIsCanonical }
{}

/// Putting a list in canonical order grants no bit that the list didn't grant before, to no token and under no
/// mapping, and whether the list limits the owner stays ([MS-DTYP] 2.5.3.2).
pub fn order_grants_nothing()
    ensures grants { OrderGrantsNothing }
    ensures limits { OrderKeepsOwnersLimit }
{}

/// ProtectKeeping can take rights away and never adds any: a bit that is granted afterwards, at the node, below it or
/// anywhere else, was granted before, to each token, and so was a request without MAXIMUM_ALLOWED.
pub fn keeping_lets_nobody_in()
    ensures bits { KeepingLetsNobodyIn }
    ensures requests { KeepingGrantsNoNewRequest }
{}

/// ProtectKeeping of a node and then its move: the move changes no DACL, and the two edits add no right. A bit that is
/// granted afterwards, at a node's new path, was granted at the node before, to each token, and so was a request
/// without MAXIMUM_ALLOWED.
pub fn protecting_first_lets_nobody_in()
    ensures lists { ProtectingFirstKeepsLists }
    ensures bits { ProtectingFirstLetsNobodyIn }
    ensures requests { ProtectingFirstGrantsNoNewRequest }
{}
