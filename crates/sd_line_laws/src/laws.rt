//! What an object of JSON determines of its line.

ghost use Rattle.sd_line_laws.specs.Laws.{ObjectsDetermineTexts, ObjectsDetermineValues};
ghost use Rattle.sd_line_laws.specs.Laws.{ObjectsDetermineWhetherOfAKind};

/// An object of JSON determines the kind of its line, and its values by their names: lines that differ in these have
/// different objects. Of a line without a kind it determines the text, and such a line never has the object of one with
/// a kind.
pub fn objects_are_distinct()
    ensures values { ObjectsDetermineValues }
    ensures texts { ObjectsDetermineTexts }
    ensures kind { ObjectsDetermineWhetherOfAKind }
{}
