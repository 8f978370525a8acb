//! What follows from the table of commands and from the parser of a command line. Each law is the contract of a
//! function that does nothing.
ghost use Rattle.std.specs.Prelude.{codes};
ghost use Rattle.sd_arguments.specs.Laws.{CommandsAreDistinct, DashesKeepTexts, EachAsksTheCommand};
ghost use Rattle.sd_arguments.specs.Laws.{HelpStandsAlone, InputAsksTheCommand, OptionsAreDistinct};
ghost use Rattle.sd_arguments.specs.Laws.{OptionsKeepTexts};

use sd_usage::DescriptorCommand;

/// No two commands have one name, and no two options: a text names at most one row of the table.
pub fn names_are_distinct()
    ensures commands { CommandsAreDistinct }
    ensures options { OptionsAreDistinct }
{}

/// Help and the version answer two arguments after the program's name at most, so no verdict's arguments ask for them.
#[tactic(auto, using(crate::proofs::LawProofs::help_stands_alone))]
pub fn help_stands_alone()
    ensures { HelpStandsAlone }
{}

/// After `verdict --` and `why --` each argument is that of its place, whatever its text: an option too.
pub fn dashes_keep_texts()
    ensures verdict { DashesKeepTexts DescriptorCommand.Verdict (codes "verdict") }
    ensures why { DashesKeepTexts DescriptorCommand.Why (codes "why") }
    ensures with_options { OptionsKeepTexts }
{}

/// What `each` asks of a line, and `--stdin` of the input, is what the command asks with that text as its first
/// argument.
pub fn each_asks_the_command()
    ensures each { EachAsksTheCommand }
    ensures input { InputAsksTheCommand }
{}
