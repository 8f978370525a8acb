//! What a dump is for.

ghost use Rattle.sd_script_laws.specs.Laws.{DumpMakesTheTreeAgain};

/// The lines that `dump` prints, run as a script in the same manner, make a store with the same published tree, within
/// the same limits, for as many readers, without pending edits; and every run of them ends with just that store.
pub fn dump_makes_the_tree_again()
    ensures { DumpMakesTheTreeAgain }
{}
