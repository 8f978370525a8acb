//! What follows from the definitions of reasons and parts. Each law is the contract of a function that does nothing.

ghost use Rattle.sd_explain.specs.Laws.{AllowedNamesFirst, DeniedNamesFirst, NoEntryWhereNone, FirstPassHasSubject};
ghost use Rattle.sd_explain.specs.Laws.{SecondPassHasSubject, NamedCauseIsDue, MaximumCauseIsDue, PartsAreApart};
ghost use Rattle.sd_explain.specs.Laws.{EachBitHasItsPart, PartsHoldTheirCause, ReasonsJoinToRequest};
ghost use Rattle.sd_explain.specs.Laws.{GrantedAreTheParts};

/// The entry that a finding names is the first that decides the bit, at that place of the list; none is named if and
/// only if none decides it ([MS-DTYP] 2.5.3.2).
#[tactic(auto, using(crate::proofs::ReasonLaws::on_findings))]
pub fn findings_name_first_entries()
    ensures allowed { AllowedNamesFirst }
    ensures denied { DeniedNamesFirst }
    ensures none { NoEntryWhereNone }
{}

/// An entry that decides a bit speaks of a SID that the token stands for in that pass: its own, or the owner's where it
/// is for OWNER RIGHTS, as `subject_of` of `sd_check` returns ([MS-DTYP] 2.5.3.1).
#[tactic(auto, using(crate::proofs::ReasonLaws::on_subjects))]
pub fn findings_have_a_subject()
    ensures first { FirstPassHasSubject }
    ensures second { SecondPassHasSubject }
{}

/// A cause grants its bit if and only if the check does.
#[tactic(auto, using(crate::proofs::Causes::named_grants, crate::proofs::Causes::maximum_grants))]
pub fn causes_are_due()
    ensures named { NamedCauseIsDue }
    ensures maximum { MaximumCauseIsDue }
{}

/// Each bit with a reason is in just one part, with the bits of its cause and no others.
#[tactic(auto, using(crate::proofs::PartLaws::on_parts))]
pub fn parts_are_apart_and_whole()
    ensures apart { PartsAreApart }
    ensures each { EachBitHasItsPart }
    ensures alone { PartsHoldTheirCause }
{}

/// The parts join to the mapped request, and those that are granted to what is granted.
#[tactic(auto, using(crate::proofs::ReasonLaws::on_requests))]
pub fn parts_join()
    ensures request { ReasonsJoinToRequest }
    ensures granted { GrantedAreTheParts }
{}
