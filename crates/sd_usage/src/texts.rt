//! The help on commands, arguments and options.

use crate::names::{Commands, listed_commands, usage_line};
use crate::notes::notes_of;
use crate::row::{Argument, CommandRow, Flag, OptionRow};
use std::alloc::{AllocError, Global};

const USER: &str = "The user's SID: in full, as S-1-5-21-1-2-3-1001, or an alias, as SY";

const CREATOR: &str = "\
What the creator gives, in SDDL: its owner, group and lists, where they are there; '' for nothing";

const TREE: &str = "\
The nodes with commas between them, each LEVEL:GUID after the one above it: the class has level 0, its
property sets and properties 1 to 4";

const MASK: &str = "\
The access mask, written as the rights of an entry: names without a space, as FR or
RCWD, or a number below 2^32, hexadecimal (0x1f01ff), octal (01777) or decimal (2032127)";

const WORD: &str = "\
What the token has besides the user:
SID           an enabled group
SID=deny      a deny-only group, which counts for deny entries alone
SID=off       a disabled group, which counts for nothing
SID=restrict  a restricting SID, not a group: access is checked a second time, for these alone
+security     SeSecurityPrivilege
+take         SeTakeOwnershipPrivilege
user=deny     the user itself counts for deny entries alone
Under '--whole', of 'verdict', 'why' and 'types', also:
SID=device    a group of the device from which access is asked for
level=LEVEL   the integrity level, by default medium: untrusted, low, medium, mediumplus, high, system
              or a number; a group S-1-16-N is one too, and of several the lowest counts
NAME=VALUE    a claim, of the user as @User.NAME=VALUE and of the device as @Device.NAME=VALUE, with
              values as conditions have them: 3, \"VP\", #0a0b, SID(BA) or {1, 2}";

const GROUP: &str = "\
What every token in question has:
SID           an enabled group
SID=deny      a deny-only group, which counts for deny entries alone
SID=off       a disabled group, which counts for nothing";

/// The texts on a command that the table doesn't have word for word.
#[derive(Drop)]
pub(crate) struct CommandTexts {
    pub(crate) usage: String,
    /// The end of its help.
    pub(crate) notes: String,
    /// The commands that `each` takes.
    line_commands: String,
}

impl CommandTexts {
    pub(crate) fn new(alloc: Global, row: &CommandRow) -> Result<CommandTexts, AllocError> {
        let (name, command, _, _, example) = row;
        let notes = notes_of(command.name);
        Ok(CommandTexts {
            usage: usage_line(alloc, name, *command)?,
            notes: format!(in alloc; "{notes}\n\nExample:\n  {example}")?,
            line_commands: listed_commands(alloc, Commands::Answering, "")?,
        })
    }

    /// The help on an argument.
    pub(crate) fn help(&self, argument: Argument) -> &str {
        match argument {
            Argument::Descriptor => "The descriptor in SDDL",
            Argument::Old => "The descriptor before the change, in SDDL",
            Argument::New => "The descriptor after the change, in SDDL",
            Argument::Parent => "The descriptor of the container, in SDDL",
            Argument::Child => "The descriptor of the object in it, in SDDL",
            Argument::Creator => CREATOR,
            Argument::Bytes => "The bytes of the descriptor, in hexadecimal",
            Argument::Tree => TREE,
            Argument::User => USER,
            Argument::PrimaryGroup =>
                "The SID of the user's primary group, as DU or S-1-5-21-1-2-3-513",
            Argument::Mask => MASK,
            Argument::Sid => "The SID: in full, as S-1-5-21-1-2-3-1001, or an alias, as SY",
            Argument::OldSid => "The SID that is replaced: in full, or an alias, as SY",
            Argument::NewSid => "The SID in its place: in full, or an alias, as SY",
            Argument::Word => WORD,
            Argument::Group => GROUP,
            Argument::Workers => "The number of workers, 1 to 64, in one or two decimal digits",
            Argument::Command => self.line_commands.as_str(),
            Argument::CommandArgument => "The command's arguments without the first",
        }
    }
}

/// What a command's own option does.
pub(crate) fn flag_help(flag: Flag) -> &'static str {
    match flag {
        Flag::Ids => "Each line begins with an id, and so does each line of its answer",
        Flag::Zero => "Lines end with zero bytes",
        Flag::Key => "Each line begins with a key and a tab, and so does each line of its answer",
        Flag::Pairs => "Each line is OLD and NEW of 'compare' or 'diff', with a tab between them",
    }
}

/// The help on an option: the commands before which it goes, and what it does.
pub(crate) fn option_help(alloc: Global, row: &OptionRow) -> Result<String, AllocError> {
    let commands = listed_commands(alloc, Commands::Taking(row.1.name), "'")?;
    let (commands, meaning) = (commands.as_str(), row.2);
    format!(in alloc; "Before {commands}:\n{meaning}")
}
