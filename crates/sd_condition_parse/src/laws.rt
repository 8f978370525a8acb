//! Laws of a condition's text: each function has an empty body, and its contract is the law.

ghost use Rattle.sd_condition_parse.specs.Laws.{IntegersComeBack, OctetsComeBack, PlainNamesComeBack, SidsComeBack};
ghost use Rattle.sd_condition_parse.specs.Laws.{WordsLeaveACondition};

/// A law: where the words of a text are those of a condition ([MS-DTYP] 2.5.1.1), each operator of their tokens finds
/// its operands, and one condition is left. So `parse_condition` returns `AclTooLarge` only for the size of the data.
#[tactic(auto, using(crate::proofs::Leaving::words_leave_a_condition))]
pub fn words_leave_a_condition()
    ensures { WordsLeaveACondition }
{}

/// A law: a SID's text ([MS-DTYP] 2.5.1.1, literal-SID), as `print_condition` prints it, is parsed as the SID, whatever
/// follows it and whichever aliases the text may have.
#[tactic(auto, using(crate::proofs::Printed::sids_come_back))]
pub fn sids_come_back()
    ensures { SidsComeBack }
{}

/// A law: an integer's text ([MS-DTYP] 2.5.1.1, integer-value), as `print_condition` prints it, is parsed as the
/// integer with its sign and base, where no letter or digit follows it.
#[tactic(auto, using(crate::proofs::Printed::integers_come_back))]
pub fn integers_come_back()
    ensures { IntegersComeBack }
{}

/// A law: an octet string's text ([MS-DTYP] 2.5.1.1, octet-string-value), as `print_condition` prints it, is parsed as
/// the octets, where no hexadecimal digit follows it.
#[tactic(auto, using(crate::proofs::PrintedRuns::octets_come_back))]
pub fn octets_come_back()
    ensures { OctetsComeBack }
{}

/// A law: the name of an attribute without a prefix ([MS-DTYP] 2.5.1.1, attr-name1), as `print_condition` prints it, is
/// parsed as the attribute, where no more of a name follows it.
#[tactic(auto, using(crate::proofs::PrintedRuns::plain_names_come_back))]
pub fn plain_names_come_back()
    ensures { PlainNamesComeBack }
{}
