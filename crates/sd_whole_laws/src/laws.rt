//! Laws of whole descriptors' printed texts.

ghost use Rattle.sd_whole_laws.specs.Laws.{ParsedIsWhole, WholeTextsComeBack};

/// A law, the round trip: the text that `print_whole` of `sd_whole_text` prints of a descriptor is parsed as that
/// descriptor by `read_whole_sddl` of `sd_whole_parse`, whichever aliases a text may have, and whichever names rights
/// have. Only AclRevision isn't in the text: each list has the one that its entries need ([MS-DTYP] 2.5.1.1, 2.4.5).
pub fn whole_texts_come_back()
    ensures { WholeTextsComeBack }
{}

/// A law: of what `read_whole` of `sd_whole` parses the round trip holds: its entries and lists fit, and its flags,
/// GUIDs and data are bytes ([MS-DTYP] 2.4.6).
pub fn parsed_is_whole()
    ensures { ParsedIsWhole }
{}
