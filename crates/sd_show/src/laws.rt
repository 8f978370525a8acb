//! Laws of `diff`: each function has an empty body, and its contract is the law.

ghost use Rattle.sd_show.specs.Laws.{AlikeHasNoLine, NoLineMeansAlike};

/// A law: where `diff_lines` has no line, both descriptors have the same owner, group and resource manager's byte, the
/// same lists with their revisions and entries, and the same control bits ([MS-DTYP] 2.4.6).
#[tactic(auto, using(crate::proofs::NoLine::no_line_means_alike))]
pub fn no_line_means_alike()
    ensures { NoLineMeansAlike }
{}

/// A law: where all these are the same, `diff_lines` has no line.
#[tactic(auto, using(crate::proofs::NothingDiffers::alike_has_no_line))]
pub fn alike_has_no_line()
    ensures { AlikeHasNoLine }
{}
