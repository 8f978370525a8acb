//! What the rows of the table of commands and options are made of, and what a row says. Definitions can't name a
//! constant whose structs hold references, so a row is a tuple: of texts, and of a struct without any.
ghost use Rattle.std.specs.Prelude.{◌≡◌, ◌<◌, ◌==◌, bytes_eq, false, option_map};
ghost use Rattle.std.specs.List.{list_any};
ghost use Rattle.std.specs.Option.{option_map_or};
ghost use Rattle.sd_usage.specs.Table.{argument_at, command_named, count_of, first_of, flag_name, flag_named};
ghost use Rattle.sd_usage.specs.Table.{option_named, place, takes_count, takes_option};
ghost use Rattle.sd_usage.specs.declared.row.TheConstants.{OPTION_COUNT};

use crate::option_table::OPTIONS;
use crate::table::COMMANDS;

/// The name of a command, the command, the options that may go before it, what it does, and a command line that runs as
/// it stands.
pub type CommandRow = (
    &'static str,
    Command,
    &'static [OptionName],
    &'static str,
    &'static str,
);

/// The name of an option before a command, the option, and what it does, after the commands that it goes before.
pub type OptionRow = (&'static str, ProgramOption, &'static str);

/// A command of the program.
#[derive(Clone, Copy, PartialEq, Eq)]
pub enum CommandName {
    /// A command that answers its arguments, of which the first can be a line of `each`.
    Ask(TextCommand),
    /// `script`.
    Script,
    /// `serve`.
    Serve,
    /// `audit`.
    Audit,
    /// `each`.
    Each,
}

/// A command that answers its arguments.
#[derive(Clone, Copy, PartialEq, Eq)]
pub enum TextCommand {
    /// A command whose first argument is a descriptor in SDDL.
    Descriptor(DescriptorCommand),
    /// `frombin`.
    FromBinary,
    /// `show`.
    Show,
    /// `diff`.
    Diff,
    /// `types`.
    Types,
    /// A command that changes a whole descriptor.
    Change(ChangeCommand),
    /// A command about what an object inherits.
    Heir(HeirCommand),
    /// `rights`.
    Rights,
    /// `sid`.
    Sid,
}

/// A command about a descriptor.
#[derive(Clone, Copy, PartialEq, Eq)]
pub enum DescriptorCommand {
    /// `verdict`.
    Verdict,
    /// `why`.
    Why,
    /// `who`.
    Who,
    /// `compare`.
    Compare,
    /// `lint`.
    Lint,
    /// `print`.
    Print,
    /// `sort`.
    Sort,
    /// `tobin`.
    ToBinary,
}

/// A command that prints a whole descriptor after a change.
#[derive(Clone, Copy, PartialEq, Eq)]
pub enum ChangeCommand {
    /// `replace`.
    Replace,
    /// `remove`.
    Remove,
    /// `protect`.
    Protect,
    /// `unprotect`.
    Unprotect,
}

/// A command about the whole descriptor of an object in a container.
#[derive(Clone, Copy, PartialEq, Eq)]
pub enum HeirCommand {
    /// `create`.
    Create,
    /// `inherit`.
    Inherit,
    /// `stale`.
    Stale,
}

/// An option before a command.
#[derive(Clone, Copy, PartialEq, Eq)]
pub enum OptionName {
    /// `--stdin`.
    Stdin,
    /// `--names`.
    Names,
    /// `--whole`.
    Whole,
    /// `--without-bits`.
    WithoutBits,
    /// `--require-dacl`.
    RequireDacl,
    /// `--below`.
    Below,
    /// `--object`.
    Object,
    /// `--risks`.
    Risks,
    /// `--concern`.
    Concern,
    /// `--base64`.
    Base64,
    /// `--loose`.
    Loose,
    /// `--percent`.
    Percent,
    /// `--strict`.
    Strict,
    /// `--nodes`.
    Nodes,
    /// `--edits`.
    Edits,
    /// `--domain`.
    Domain,
    /// `--aliases`.
    Aliases,
    /// `--mapping`.
    Mapping,
    /// `--json`.
    Json,
    /// `--color`.
    Color,
    /// `--caret`.
    Caret,
    /// `--strict-status`.
    StrictStatus,
    /// `--logon`.
    Logon,
    /// `--type`.
    Type,
    /// `--self`.
    PrincipalSelf,
    /// `--accounts`.
    Accounts,
    /// `--schema`.
    Schema,
}

/// How many options there are.
pub const OPTION_COUNT: usize = 27;

/// A command, and what follows it.
#[derive(Clone, Copy)]
pub struct Command {
    pub name: CommandName,
    /// Its own options, which go after it.
    pub flags: Flags,
    /// The arguments that it requires.
    pub arguments: Arguments,
    /// What any number of further arguments are, if it takes them.
    pub repeated: Option<Argument>,
}

/// The own options of a command.
#[derive(Clone, Copy)]
pub enum Flags {
    Nothing,
    One(Flag),
    Three(Flag, Flag, Flag),
}

/// A command's own option.
#[derive(Clone, Copy)]
pub enum Flag {
    /// `--ids`.
    Ids,
    /// `-0`.
    Zero,
    /// `--key`.
    Key,
    /// `--pairs`.
    Pairs,
}

/// The arguments that a command requires.
#[derive(Clone, Copy)]
pub enum Arguments {
    Nothing,
    One(Argument),
    Two(Argument, Argument),
    Three(Argument, Argument, Argument),
    Four(Argument, Argument, Argument, Argument),
}

/// An argument of a command.
#[derive(Clone, Copy, PartialEq, Eq)]
pub enum Argument {
    /// `SDDL`: a descriptor in SDDL ([MS-DTYP] 2.5.1.1).
    Descriptor,
    /// `OLD`: a descriptor in SDDL ([MS-DTYP] 2.5.1.1), before a change.
    Old,
    /// `NEW`: a descriptor in SDDL ([MS-DTYP] 2.5.1.1), after a change.
    New,
    /// `PARENT`: the descriptor, in SDDL ([MS-DTYP] 2.5.1.1), of a container.
    Parent,
    /// `CHILD`: the descriptor, in SDDL ([MS-DTYP] 2.5.1.1), of an object in it.
    Child,
    /// `CREATOR`: what the creator of an object gives, in SDDL ([MS-DTYP] 2.5.1.1).
    Creator,
    /// `BYTES`: a descriptor in self-relative form ([MS-DTYP] 2.4.6).
    Bytes,
    /// `TREE`: a tree of object types ([MS-DTYP] 2.5.3.2, ObjectTypeList).
    Tree,
    /// `USER`: a user's SID ([MS-DTYP] 2.4.2.1).
    User,
    /// `GROUP`: the SID ([MS-DTYP] 2.4.2.1) of the user's primary group.
    PrimaryGroup,
    /// `MASK`: an access mask ([MS-DTYP] 2.4.3).
    Mask,
    /// `SID`: a SID ([MS-DTYP] 2.4.2.1).
    Sid,
    /// `OLD`: a SID ([MS-DTYP] 2.4.2.1) that is replaced.
    OldSid,
    /// `NEW`: the SID ([MS-DTYP] 2.4.2.1) in its place.
    NewSid,
    /// `WORD`: a group, a restricting SID or a privilege.
    Word,
    /// `WORD`: a group that every token in question has.
    Group,
    /// `N`: a number of workers.
    Workers,
    /// `COMMAND`: the command of `each`.
    Command,
    /// `ARG`: an argument of the command of `each`.
    CommandArgument,
}

/// An option before a command.
#[derive(Clone, Copy)]
pub struct ProgramOption {
    pub name: OptionName,
    /// What its value is, which is the next argument, if it has one.
    pub value: Option<Value>,
    pub beside: Beside,
}

/// Beside which options an option can be given.
#[derive(Clone, Copy)]
pub enum Beside {
    /// Beside any.
    Any,
    /// Not beside this one.
    Without(OptionName),
    /// Only beside the first, not beside the second, and before a command that takes the third only beside the fourth.
    With(OptionName, OptionName, OptionName, OptionName),
}

/// The value of an option.
#[derive(Clone, Copy)]
pub enum Value {
    /// `SID`: a domain's SID ([MS-DTYP] 2.4.2.4).
    Sid,
    /// `SIDS`: SIDs ([MS-DTYP] 2.4.2.1) with commas between them.
    Sids,
    /// `KIND`: a generic mapping ([MS-DTYP] 2.4.3).
    Kind,
    /// `LOGON`: how a user logs on.
    Logon,
    /// `N`: a number in decimal digits.
    Number,
    /// `GUID`: an object type ([MS-DTYP] 2.3.4.3).
    Guid,
    /// `FILE`: the name of a file.
    File,
}

/// The command that the text names.
#[tactic(auto, unfolding(crate::specs::Table::command_named))]
pub fn command_named(text: &str) -> Option<Command>
    ensures { result ≡ command_named text.now }
{
    command_in(COMMANDS, text)
}

/// The command of the first of these rows with that name.
fn command_in(rows: &[CommandRow], text: &str) -> Option<Command>
    ensures { result ≡ first_of (λ row. bytes_eq row.0.now text.now) (λ row. row.1) rows.now }
{
    match rows {
        [] => None,
        [row, _rows @ ..] if row.0 == text => Some(row.1),
        [_row, rows @ ..] => command_in(rows, text),
    }
}

/// Whether the option may go before the command that the text names.
#[tactic(auto, unfolding(crate::specs::Table::takes_option))]
pub fn takes_option(text: &str, option: OptionName) -> bool
    ensures { result ≡ takes_option text.now option }
{
    takes_in(COMMANDS, text, option)
}

/// Whether the option is one of those of the first of these rows with that name.
fn takes_in(rows: &[CommandRow], text: &str, option: OptionName) -> bool
    ensures { result ≡ option_map_or (λ options. list_any (λ name. place name == place option) options)
        (first_of (λ row. bytes_eq row.0.now text.now) (λ row. row.2.now) rows.now) false }
{
    match options_in(rows, text) {
        Some(options) => options.contains(&option),
        None => false,
    }
}

/// The options of the first of these rows with that name.
fn options_in(rows: &[CommandRow], text: &str) -> Option<&'static [OptionName]>
    ensures { option_map (λ options. options.now) result
        ≡ first_of (λ row. bytes_eq row.0.now text.now) (λ row. row.2.now) rows.now }
{
    match rows {
        [] => None,
        [row, _rows @ ..] if row.0 == text => Some(row.2),
        [_row, rows @ ..] => options_in(rows, text),
    }
}

/// The option that the text names.
#[tactic(auto, unfolding(crate::specs::Table::option_named))]
pub fn option_named(text: &str) -> Option<ProgramOption>
    ensures { result ≡ option_named text.now }
{
    option_in(OPTIONS, text)
}

/// The option of the first of these rows with that name.
fn option_in(rows: &[OptionRow], text: &str) -> Option<ProgramOption>
    ensures { result ≡ first_of (λ row. bytes_eq row.0.now text.now) (λ row. row.1) rows.now }
{
    match rows {
        [] => None,
        [row, _rows @ ..] if row.0 == text => Some(row.1),
        [_row, rows @ ..] => option_in(rows, text),
    }
}

impl OptionName {
    /// Its place among all options, from 0.
    pub fn place(self) -> usize
        ensures is { result ≡ place self }
        ensures within { result < OPTION_COUNT }
    {
        self as usize
    }
}

impl Command {
    /// Whether it takes so many arguments.
    pub fn takes_count(self, count: usize) -> bool
        ensures { result ≡ takes_count self count }
    {
        let least = self.arguments.count();
        least <= count && (self.repeated.is_some() || count == least)
    }

    /// Its own option that the text names.
    pub fn flag_named(self, text: &str) -> Option<Flag>
        ensures { result ≡ flag_named self text.now }
    {
        match self.flags {
            Flags::One(flag) | Flags::Three(flag, _, _) if flag.name() == text => Some(flag),
            Flags::Three(_, flag, _) if flag.name() == text => Some(flag),
            Flags::Three(_, _, flag) if flag.name() == text => Some(flag),
            _ => None,
        }
    }
}

impl Flag {
    /// The option's name.
    pub(crate) fn name(self) -> &'static str
        ensures { result.now ≡ flag_name self }
    {
        match self {
            Flag::Ids => "--ids",
            Flag::Zero => "-0",
            Flag::Key => "--key",
            Flag::Pairs => "--pairs",
        }
    }
}

impl Arguments {
    /// The argument at this place, from 0, if so many are required.
    pub fn at(self, place: usize) -> Option<Argument>
        ensures { result ≡ argument_at self place }
    {
        match self {
            Arguments::One(first)
            | Arguments::Two(first, _)
            | Arguments::Three(first, ..)
            | Arguments::Four(first, ..)
                if place == 0 => Some(first),
            Arguments::Two(_, second)
            | Arguments::Three(_, second, _)
            | Arguments::Four(_, second, ..)
                if place == 1 => Some(second),
            Arguments::Three(_, _, third) | Arguments::Four(_, _, third, _) if place == 2 => Some(
                third,
            ),
            Arguments::Four(_, _, _, fourth) if place == 3 => Some(fourth),
            _ => None,
        }
    }

    /// How many they are.
    pub fn count(self) -> usize
        ensures { result ≡ count_of self }
    {
        match self {
            Arguments::Nothing => 0,
            Arguments::One(..) => 1,
            Arguments::Two(..) => 2,
            Arguments::Three(..) => 3,
            Arguments::Four(..) => 4,
        }
    }
}
