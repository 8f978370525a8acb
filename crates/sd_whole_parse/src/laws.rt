//! The laws of whole descriptors' texts, parsed.

ghost use Rattle.sd_whole_parse.specs.Laws.{GuidsComeBack, NothingElseIsLeftOut, PlainTextsAreReadAlike};
ghost use Rattle.sd_whole_parse.specs.Laws.{PlainTextsAreTheirPart, PlainTextsComeBack, PlainTextsHaveAPart};
ghost use Rattle.sd_whole_parse.specs.Laws.{PlainTextsHaveNoSacl};

/// A law: a text that `read_sddl_in` of `sd_text` parses is parsed as the same descriptor, made whole ([MS-DTYP]
/// 2.5.1.1).
#[tactic(auto, using(crate::proofs::PlainTexts::plain_texts_read))]
pub fn plain_texts_are_read_alike()
    ensures { PlainTextsAreReadAlike }
{}

/// A law: the text that `print_sddl_in` of `sd_text` prints of a descriptor, and `print_whole` of the same one made
/// whole, is parsed as that whole descriptor, if no entry has a flag outside the seven named ones ([MS-DTYP] 2.5.1.1).
#[tactic(auto, using(crate::proofs::PlainTexts::plain_texts_again))]
pub fn plain_texts_come_back()
    ensures { PlainTextsComeBack }
{}

/// A law: of a text that `read_sddl_in` of `sd_text` parses `read_text_part` and `read_sddl_part` return the same
/// descriptor, and that nothing was left out, whether the text may be that of a whole descriptor or not; their only
/// error is out of memory ([MS-DTYP] 2.5.1.1).
pub fn plain_texts_are_their_part()
    ensures part { PlainTextsAreTheirPart }
    ensures sacl { PlainTextsHaveNoSacl }
    ensures error { PlainTextsHaveAPart }
{}

/// A law: where `read_text_part` leaves nothing out of the text of a whole descriptor, `read_whole_sddl` parses the
/// text as the same descriptor as it returns, made whole ([MS-DTYP] 2.5.1.1).
#[tactic(auto, using(crate::proofs::AllThere::nothing_else))]
pub fn nothing_else_is_left_out()
    ensures { NothingElseIsLeftOut }
{}

/// A law: the text that `print_guid` of `sd_whole_text` prints is parsed as that GUID ([MS-DTYP] 2.3.4.3).
#[tactic(auto, using(crate::proofs::GuidTexts::guids_back))]
pub fn guids_come_back()
    ensures { GuidsComeBack }
{}
