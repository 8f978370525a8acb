//! What follows from the rules of the check. Each law is the contract of a function that does nothing.

ghost use Rattle.sd_check.specs.Laws.{FirstEntryDecides, SilentEntryChangesNothing, GrantsWhatWasAsked};
ghost use Rattle.sd_check.specs.Laws.{MaximumIsEachByItself, DeniedMaximumIsNone, NothingBeyondMaximum};
ghost use Rattle.sd_check.specs.Laws.{EnabledGroupTakesNothing, EntriesGrantRightsAlone, NobodyRestrictsNothing};
ghost use Rattle.sd_check.specs.Laws.{RestrictionGrantsNoBit, RestrictionGrantsNoRequest, OrderOfRestrictingSidsIsFree};

/// A deny before an allow of the same bit wins, and after it loses: the first entry that decides a bit counts,
/// whatever comes after ([MS-DTYP] 2.5.3.2).
#[tactic(auto, using(crate::proofs::LawProofs::first_entry_decides))]
pub fn first_entry_decides()
    ensures { FirstEntryDecides }
{}

/// An entry that is inherit-only, or applies to nobody here, changes no verdict; but an effective one for OWNER
/// RIGHTS limits the owner.
#[tactic(auto, using(crate::proofs::LawProofs::silent_entry_changes_nothing))]
pub fn silent_entry_changes_nothing()
    ensures { SilentEntryChangesNothing }
{}

/// What is granted is what was asked for, its generic rights mapped, unless MAXIMUM_ALLOWED was asked for.
#[tactic(auto, using(crate::proofs::LawProofs::grants_what_was_asked))]
pub fn grants_what_was_asked()
    ensures { GrantsWhatWasAsked }
{}

/// For a list, MAXIMUM_ALLOWED grants just the rights of the object and the standard ones that are granted when
/// each is asked for by itself; it is denied only where none of these is.
#[tactic(auto, using(crate::proofs::LawProofs::on_maximum))]
pub fn maximum_is_each_by_itself()
    ensures each { MaximumIsEachByItself }
    ensures none { DeniedMaximumIsNone }
    ensures nothing_else { NothingBeyondMaximum }
{}

/// One more enabled group takes no bit away that no effective deny entry for the group names.
#[tactic(auto, using(crate::proofs::LawProofs::enabled_group_takes_nothing))]
pub fn enabled_group_takes_nothing()
    ensures { EnabledGroupTakesNothing }
{}

/// An empty list of restricting SIDs restricts nothing.
#[tactic(auto, using(crate::proofs::RestrictionProofs::nobody_restricts_nothing))]
pub fn nobody_restricts_nothing()
    ensures { NobodyRestrictsNothing }
{}

/// What a restricted token is granted, bit for bit and request for request, it is granted without its restricting SIDs
/// too.
#[tactic(auto, using(crate::proofs::RestrictionProofs::on_restriction))]
pub fn restriction_only_takes_away()
    ensures bits { RestrictionGrantsNoBit }
    ensures requests { RestrictionGrantsNoRequest }
{}

/// In which order the restricting SIDs stand, and how often each, changes no verdict.
#[tactic(auto, using(crate::proofs::RestrictionProofs::order_of_restricting_sids_is_free))]
pub fn order_of_restricting_sids_is_free()
    ensures { OrderOfRestrictingSidsIsFree }
{}

/// Neither a reserved bit nor ACCESS_SYSTEM_SECURITY comes from an entry, or where there is no list.
#[tactic(auto, using(crate::proofs::LawProofs::entries_grant_rights_alone))]
pub fn entries_grant_rights_alone()
    ensures { EntriesGrantRightsAlone }
{}
