//! Laws of whole descriptors as bytes: each function has an empty body, and its contract is the law.

ghost use Rattle.sd_whole.specs.Laws.{EntriesStayAsTheyAre, ListsStayAsTheyAre, PlainDescriptorsAreWhole};
ghost use Rattle.sd_whole.specs.Laws.{WholeDescriptorsComeBack};

/// A law: an entry that `read_whole_entry` parses is written as the bytes that it was parsed from, whatever its type.
#[tactic(auto, using(crate::proofs::ListStands::entries_stay))]
pub fn entries_stay_as_they_are()
    ensures { EntriesStayAsTheyAre }
{}

/// A law: the entries of a list that `read_whole` parses are written, one after another, as the bytes after the
/// list's header.
#[tactic(auto, using(crate::proofs::ListStands::lists_stay))]
pub fn lists_stay_as_they_are()
    ensures { ListsStayAsTheyAre }
{}

/// A law, the round trip: `read_whole` parses what `write_whole` writes, for every descriptor whose numbers fit and
/// whose entries are what their bytes are parsed as, as those that `read_whole` returns.
#[tactic(auto, using(crate::proofs::DescriptorAgain::descriptors_come_back))]
pub fn whole_descriptors_come_back()
    ensures { WholeDescriptorsComeBack }
{}

/// A law: what `sd_wire` parses as a plain descriptor `read_whole` parses too, with no entries in its SACL; the plain
/// form of what it returns is that descriptor.
#[tactic(auto, using(crate::proofs::PlainIsWhole::plain_are_whole))]
pub fn plain_descriptors_are_whole()
    ensures { PlainDescriptorsAreWhole }
{}
