//! The table of commands. It and that of options alone say which arguments are a command line.

use crate::options::{
    BYTES_OPTIONS, CHANGE_OPTIONS, COMPARE_OPTIONS, HEIR_OPTIONS, LINT_OPTIONS, PRINT_OPTIONS,
    RIGHTS_OPTIONS, SCRIPT_OPTIONS, SHOW_OPTIONS, SID_OPTIONS, SORT_OPTIONS, STALE_OPTIONS,
    TO_BINARY_OPTIONS, TYPES_OPTIONS, VERDICT_OPTIONS, WHO_OPTIONS,
};
use crate::row::{
    Argument, Arguments, ChangeCommand, Command, CommandName, CommandRow, DescriptorCommand, Flag,
    Flags, HeirCommand, TextCommand,
};

/// The commands, in the order in which help lists them.
pub const COMMANDS: &[CommandRow] = &[
    (
        "verdict",
        Command {
            name: CommandName::Ask(TextCommand::Descriptor(DescriptorCommand::Verdict)),
            flags: Flags::Nothing,
            arguments: Arguments::Three(Argument::Descriptor, Argument::User, Argument::Mask),
            repeated: Some(Argument::Word),
        },
        VERDICT_OPTIONS,
        "Prints whether a descriptor grants an access mask to a user",
        "\
sdstore verdict 'D:(D;;0x2;;;S-1-5-21-1-2-3-1001)(A;;0x1f01ff;;;S-1-5-21-1-2-3-1001)' S-1-5-21-1-2-3-1001 0x1",
    ),
    (
        "why",
        Command {
            name: CommandName::Ask(TextCommand::Descriptor(DescriptorCommand::Why)),
            flags: Flags::Nothing,
            arguments: Arguments::Three(Argument::Descriptor, Argument::User, Argument::Mask),
            repeated: Some(Argument::Word),
        },
        VERDICT_OPTIONS,
        "Prints whether a descriptor grants an access mask to a user, and why",
        "sdstore why 'D:(D;;0x2;;;BU)(A;;FR;;;BU)' S-1-5-21-1-2-3-1001 0x10003 BU",
    ),
    (
        "types",
        Command {
            name: CommandName::Ask(TextCommand::Types),
            flags: Flags::Nothing,
            arguments: Arguments::Four(
                Argument::Descriptor,
                Argument::Tree,
                Argument::User,
                Argument::Mask,
            ),
            repeated: Some(Argument::Word),
        },
        TYPES_OPTIONS,
        "Prints whether a descriptor grants an access mask to a user, for each node of a tree of object types",
        "\
sdstore --whole types 'O:BAG:SYD:(OA;;RP;bf967950-0de6-11d0-a285-00aa003049e2;;S-1-1-0)' \
0:bf967aba-0de6-11d0-a285-00aa003049e2,1:bf967950-0de6-11d0-a285-00aa003049e2 S-1-5-21-1-2-3-1001 RP WD",
    ),
    (
        "who",
        Command {
            name: CommandName::Ask(TextCommand::Descriptor(DescriptorCommand::Who)),
            flags: Flags::Nothing,
            arguments: Arguments::Two(Argument::Descriptor, Argument::Mask),
            repeated: Some(Argument::Group),
        },
        WHO_OPTIONS,
        "Prints to whom a descriptor grants the rights of an access mask",
        "sdstore who 'O:BAG:SYD:(D;;FW;;;BG)(A;;FA;;;BU)(A;;FR;;;WD)' FR",
    ),
    (
        "compare",
        Command {
            name: CommandName::Ask(TextCommand::Descriptor(DescriptorCommand::Compare)),
            flags: Flags::Nothing,
            arguments: Arguments::Two(Argument::Old, Argument::New),
            repeated: Some(Argument::Group),
        },
        COMPARE_OPTIONS,
        "Prints which rights users gain and lose where one descriptor takes the place of another",
        "sdstore compare 'O:BAG:SYD:(A;;FA;;;BU)' 'O:BAG:SYD:(D;;FW;;;BG)(A;;FA;;;BU)'",
    ),
    (
        "lint",
        Command {
            name: CommandName::Ask(TextCommand::Descriptor(DescriptorCommand::Lint)),
            flags: Flags::Nothing,
            arguments: Arguments::One(Argument::Descriptor),
            repeated: Some(Argument::Group),
        },
        LINT_OPTIONS,
        "Prints what is doubtful in a descriptor's DACL",
        "sdstore lint 'D:(A;;FR;;;BU)(D;;FW;;;BU)(A;;0x1;;;BU)'",
    ),
    (
        "print",
        Command {
            name: CommandName::Ask(TextCommand::Descriptor(DescriptorCommand::Print)),
            flags: Flags::Nothing,
            arguments: Arguments::One(Argument::Descriptor),
            repeated: None,
        },
        PRINT_OPTIONS,
        "Prints a descriptor in canonical SDDL",
        "sdstore print 'o:s-1-5-18d:(a;;0x1f01ff;;;s-1-1-0)'",
    ),
    (
        "sort",
        Command {
            name: CommandName::Ask(TextCommand::Descriptor(DescriptorCommand::Sort)),
            flags: Flags::Nothing,
            arguments: Arguments::One(Argument::Descriptor),
            repeated: None,
        },
        SORT_OPTIONS,
        "Prints a descriptor with its DACL in canonical order",
        "sdstore sort 'D:(A;;FA;;;BU)(D;;FW;;;BG)'",
    ),
    (
        "tobin",
        Command {
            name: CommandName::Ask(TextCommand::Descriptor(DescriptorCommand::ToBinary)),
            flags: Flags::Nothing,
            arguments: Arguments::One(Argument::Descriptor),
            repeated: None,
        },
        TO_BINARY_OPTIONS,
        "Prints a descriptor in self-relative form, in hexadecimal",
        "sdstore tobin O:BA",
    ),
    (
        "frombin",
        Command {
            name: CommandName::Ask(TextCommand::FromBinary),
            flags: Flags::Nothing,
            arguments: Arguments::One(Argument::Bytes),
            repeated: None,
        },
        BYTES_OPTIONS,
        "Prints a descriptor in self-relative form as canonical SDDL",
        "sdstore frombin 010000801400000000000000000000000000000001020000000000052000000020020000",
    ),
    (
        "show",
        Command {
            name: CommandName::Ask(TextCommand::Show),
            flags: Flags::Nothing,
            arguments: Arguments::One(Argument::Descriptor),
            repeated: None,
        },
        SHOW_OPTIONS,
        "Prints all that a descriptor has, in words",
        "sdstore show 'O:BAG:SYD:PAI(D;;FW;;;BG)(A;OICIID;FA;;;BA)S:(ML;;NW;;;HI)'",
    ),
    (
        "diff",
        Command {
            name: CommandName::Ask(TextCommand::Diff),
            flags: Flags::Nothing,
            arguments: Arguments::Two(Argument::Old, Argument::New),
            repeated: None,
        },
        SHOW_OPTIONS,
        "Prints in words what one descriptor has and another hasn't",
        "sdstore diff 'O:BAD:(A;;FA;;;BU)' 'O:BAD:P(D;;FW;;;BG)(A;;FA;;;BU)'",
    ),
    (
        "replace",
        Command {
            name: CommandName::Ask(TextCommand::Change(ChangeCommand::Replace)),
            flags: Flags::Nothing,
            arguments: Arguments::Three(Argument::Descriptor, Argument::OldSid, Argument::NewSid),
            repeated: None,
        },
        CHANGE_OPTIONS,
        "Prints a descriptor with one SID in the place of another",
        "sdstore replace 'O:BAD:(A;;FA;;;BA)(A;;FR;;;BU)' BA SY",
    ),
    (
        "remove",
        Command {
            name: CommandName::Ask(TextCommand::Change(ChangeCommand::Remove)),
            flags: Flags::Nothing,
            arguments: Arguments::Two(Argument::Descriptor, Argument::Sid),
            repeated: None,
        },
        CHANGE_OPTIONS,
        "Prints a descriptor without the entries for a SID",
        "sdstore remove 'D:(A;;FA;;;BA)(A;;FR;;;BU)S:(AU;SA;FA;;;BU)' BU",
    ),
    (
        "protect",
        Command {
            name: CommandName::Ask(TextCommand::Change(ChangeCommand::Protect)),
            flags: Flags::Nothing,
            arguments: Arguments::One(Argument::Descriptor),
            repeated: None,
        },
        CHANGE_OPTIONS,
        "Prints a descriptor whose DACL inherits nothing, with what it inherited as its own",
        "sdstore protect 'D:AI(A;ID;FA;;;BA)'",
    ),
    (
        "unprotect",
        Command {
            name: CommandName::Ask(TextCommand::Change(ChangeCommand::Unprotect)),
            flags: Flags::Nothing,
            arguments: Arguments::One(Argument::Descriptor),
            repeated: None,
        },
        CHANGE_OPTIONS,
        "Prints a descriptor whose DACL may inherit",
        "sdstore unprotect 'D:PAI(A;;FA;;;BA)'",
    ),
    (
        "create",
        Command {
            name: CommandName::Ask(TextCommand::Heir(HeirCommand::Create)),
            flags: Flags::Nothing,
            arguments: Arguments::Four(
                Argument::Parent,
                Argument::Creator,
                Argument::User,
                Argument::PrimaryGroup,
            ),
            repeated: None,
        },
        HEIR_OPTIONS,
        "Prints the descriptor that a new object gets in a container",
        "\
sdstore create 'O:BAG:SYD:(A;OICIIO;GA;;;CO)(A;CI;FR;;;BU)' '' S-1-5-21-1-2-3-1001 S-1-5-21-1-2-3-513",
    ),
    (
        "inherit",
        Command {
            name: CommandName::Ask(TextCommand::Heir(HeirCommand::Inherit)),
            flags: Flags::Nothing,
            arguments: Arguments::Two(Argument::Child, Argument::Parent),
            repeated: None,
        },
        HEIR_OPTIONS,
        "Prints a descriptor with what it inherits now from its container's",
        "sdstore inherit 'O:BAG:SYD:AI(A;;FA;;;SY)(A;ID;FR;;;WD)' 'D:(A;OICI;FR;;;BU)'",
    ),
    (
        "stale",
        Command {
            name: CommandName::Ask(TextCommand::Heir(HeirCommand::Stale)),
            flags: Flags::Nothing,
            arguments: Arguments::Two(Argument::Child, Argument::Parent),
            repeated: None,
        },
        STALE_OPTIONS,
        "Prints in words what 'inherit' would change",
        "sdstore stale 'O:BAG:SYD:AI(A;;FA;;;SY)(A;ID;FR;;;WD)' 'D:(A;OICI;FR;;;BU)'",
    ),
    (
        "rights",
        Command {
            name: CommandName::Ask(TextCommand::Rights),
            flags: Flags::Nothing,
            arguments: Arguments::One(Argument::Mask),
            repeated: None,
        },
        RIGHTS_OPTIONS,
        "Prints the names of the rights of an access mask",
        "sdstore rights 0x1301bf",
    ),
    (
        "sid",
        Command {
            name: CommandName::Ask(TextCommand::Sid),
            flags: Flags::Nothing,
            arguments: Arguments::One(Argument::Sid),
            repeated: None,
        },
        SID_OPTIONS,
        "Prints a SID in full",
        "sdstore sid BA",
    ),
    (
        "script",
        Command {
            name: CommandName::Script,
            flags: Flags::Nothing,
            arguments: Arguments::Nothing,
            repeated: None,
        },
        SCRIPT_OPTIONS,
        "Runs the script on standard input: builds a tree of nodes, edits it and checks access",
        "\
printf 'open 1 O:BAG:SYD:\\naddo /a O:BAG:SYD:(A;;FR;;;WD)\\npublish\\ncheck 0 /a SY FR WD\\n' | sdstore script",
    ),
    (
        "serve",
        Command {
            name: CommandName::Serve,
            flags: Flags::One(Flag::Ids),
            arguments: Arguments::Nothing,
            repeated: None,
        },
        SCRIPT_OPTIONS,
        "Runs the script on standard input line by line, for a program that waits for each answer",
        "\
printf 'open 1 O:BAG:SYD:\\naddo /a O:BAG:SYD:(A;;FR;;;WD)\\npublish\\ncheck 0 /a SY FR WD\\n' | sdstore serve",
    ),
    (
        "audit",
        Command {
            name: CommandName::Audit,
            flags: Flags::Nothing,
            arguments: Arguments::One(Argument::Workers),
            repeated: None,
        },
        SCRIPT_OPTIONS,
        "Runs the script on standard input, and answers its checks at the end",
        "printf 'open 1 O:BAG:SYD:\\naddo /a O:BAG:SYD:(A;;FR;;;WD)\\ncheck 0 /a SY FR WD\\n' | sdstore audit 4",
    ),
    (
        "each",
        Command {
            name: CommandName::Each,
            flags: Flags::Three(Flag::Zero, Flag::Key, Flag::Pairs),
            arguments: Arguments::One(Argument::Command),
            repeated: Some(Argument::CommandArgument),
        },
        &[],
        "Runs a command for each line of standard input, with the line as its first argument",
        "printf 'D:(A;;FR;;;WD)\\nD:(A;;FX;;;WD)\\n' | sdstore each verdict S-1-5-21-1-2-3-1001 0x1 WD",
    ),
];

/// The commands, for texts: no contract speaks of these, so their proofs don't carry the table along.
pub(crate) fn command_rows() -> &'static [CommandRow] {
    COMMANDS
}
