//! What follows from the output of an audit. The law is the contract of a function that does nothing.
ghost use Rattle.sd_script_audit.specs.Laws.{WorkersShowInTheOpening};

/// Audits of one text by two numbers of workers, each 1 to 64, differ in the line of the opening alone.
pub fn workers_show_in_the_opening()
    ensures { WorkersShowInTheOpening }
{}
