//! The table of what was found in a command line's texts, what was expected there, and what mends it. It is for people:
//! rows of tests show each text, and no definition says one.

use std::alloc::{AllocError, Global};

/// What was found, what was expected, and what mends it.
pub(crate) type RemedyRow = (&'static str, &'static str, &'static str);

pub(crate) const OPTION: RemedyRow = (
    "an option",
    "a descriptor",
    "options stand before the command",
);

pub(crate) const SID_FIRST: RemedyRow = (
    "a SID",
    "a descriptor",
    "SDDL comes first, then USER and MASK",
);

pub(crate) const ENTRY: RemedyRow = ("an entry", "a section", "write D: before it");

pub(crate) const OPEN_ENTRY: RemedyRow = (
    "an entry without parentheses",
    "a section",
    "write D:(..)",
);

pub(crate) const FILE: RemedyRow = (
    "a file's name",
    "a descriptor",
    "write --stdin before the command, and <FILE at the end",
);

pub(crate) const NO_SECTION: RemedyRow = (
    "another text",
    "a descriptor",
    "it begins with O:, G:, D: or S:",
);

pub(crate) const QUOTE: RemedyRow = (
    "a quotation mark",
    "a descriptor",
    "quotation marks are part of the text: leave them out",
);

pub(crate) const SPACE: RemedyRow = ("a space", "none", "leave it out");

pub(crate) const TAB: RemedyRow = ("a tab", "none", "leave it out");

pub(crate) const FEED: RemedyRow = (
    "a line feed",
    "none",
    "leave it out, or write --stdin before the command, which drops one at the end",
);

pub(crate) const RETURN: RemedyRow = (
    "a carriage return",
    "none",
    "leave it out, or write --stdin, which drops the line's end",
);

pub(crate) const COMMA: RemedyRow = ("a comma", "none", "leave it out");

pub(crate) const JOINED: RemedyRow = (
    "a sign",
    "the next letters",
    "flags and rights are joined without a sign, as OICI and FRFW",
);

pub(crate) const END: RemedyRow = (
    "the end",
    "the rest of an entry",
    "an entry ends with a parenthesis, as (A;;FR;;;WD)",
);

pub(crate) const FLAGS: RemedyRow = (
    "another text",
    "flags",
    "flags are OI, CI, NP, IO and ID; rights are the third field, as (A;;FR;;;WD)",
);

pub(crate) const FIELDS: RemedyRow = (
    "fewer fields",
    "six fields",
    "an entry is KIND;FLAGS;RIGHTS;;;SID, as (A;;FR;;;WD)",
);

pub(crate) const SACL: RemedyRow = (
    "a SACL",
    "the end",
    "write --whole before the command to leave it out",
);

pub(crate) const OTHER_ENTRY: RemedyRow = (
    "another kind of entry",
    "A or D",
    "docs/FORMATS.md says what to write instead",
);

pub(crate) const DOMAIN_ALIAS: RemedyRow = (
    "a domain's alias",
    "a domain",
    "write --domain S-1-5-21-.. before the command",
);

pub(crate) const NEWER_ALIAS: RemedyRow = (
    "an alias of newer Windows versions",
    "another",
    "write --aliases before the command",
);

pub(crate) const NO_ALIAS: RemedyRow = ("no alias", "a SID", "docs/FORMATS.md lists the aliases");

pub(crate) const RANGE: RemedyRow = (
    "too large a number",
    "32 bits",
    "a SID has at most 15 sub-authorities, and a mask is at most 0xffffffff",
);

pub(crate) const DESCRIPTOR: RemedyRow = (
    "a descriptor",
    "a SID",
    "SDDL comes first, then USER and MASK",
);

pub(crate) const RIGHTS_AS_USER: RemedyRow = ("rights", "a SID", "USER comes before MASK");

pub(crate) const OTHER_USER: RemedyRow = (
    "another user",
    "S-1-5-7",
    "write AN as USER after --logon anonymous",
);

pub(crate) const NOTHING: RemedyRow = (
    "an empty text",
    "another",
    "a variable may have no value: in a shell script 'set -u' ends at one that isn't set",
);

pub(crate) const NAME: RemedyRow = (
    "a name",
    "a SID",
    "write the SID, as whoami /user and whoami /groups print it",
);

pub(crate) const EMPTY_PART: RemedyRow = (
    "an empty part",
    "a SID",
    "write SIDs with one comma between two, as BU,PU; --risks takes none",
);

pub(crate) const PLACEHOLDER: RemedyRow = (
    "a SID that stands for whoever creates or owns an object, and is in no token",
    "a user's or a group's",
    "write the SID, as whoami /user and whoami /groups print it",
);

pub(crate) const SID_AS_MASK: RemedyRow = (
    "a SID",
    "rights",
    "USER comes before MASK, and groups come after it",
);

pub(crate) const NAMES: RemedyRow = (
    "a name",
    "a number or letters as FR",
    "write --names before the command for names, as Modify or MAXIMUM_ALLOWED",
);

pub(crate) const NO_NAME: RemedyRow = (
    "no name",
    "names of rights",
    "they are written as Modify, Read or FR+WD: sdstore --names rights 0x1f01ff",
);

pub(crate) const PRIVILEGE: RemedyRow = (
    "another privilege",
    "+security or +take",
    "other privileges grant nothing here",
);

pub(crate) const STATE: RemedyRow = (
    "another state",
    "SID, SID=deny, SID=off, SID=restrict or user=deny",
    "write one of these",
);

pub(crate) const GROUP: RemedyRow = (
    "no group",
    "SID, SID=deny or SID=off",
    "a question about all tokens takes groups alone",
);

pub(crate) const CLAIM: RemedyRow = (
    "another text",
    "a claim",
    "it is @User.NAME=3, @Device.NAME=\"VP\" or NAME={1, 2}, in quotation marks of the shell",
);

pub(crate) const LEVEL: RemedyRow = (
    "another level",
    "an integrity level",
    "it is untrusted, low, medium, mediumplus, high, system or a number",
);

pub(crate) const WHOLE_WORD: RemedyRow = (
    "a claim, a level or a device's group",
    "a group or a privilege",
    "write --whole before the command",
);

pub(crate) const HEX: RemedyRow = (
    "no hexadecimal",
    "two digits a byte",
    "write --base64 or --loose before the command for other forms",
);

pub(crate) const WHOLE_SACL: RemedyRow = ("a SACL", "none", "write --whole before the command");

pub(crate) const WHOLE_BITS: RemedyRow = (
    "what SDDL has no word for",
    "P, AR and AI",
    "write --without-bits before the command to leave it out",
);

pub(crate) const WHOLE_ENTRY: RemedyRow = (
    "another kind of entry",
    "an allow or a deny",
    "write --whole before the command",
);

pub(crate) const WHOLE_RANGE: RemedyRow = (
    "too large a number",
    "a smaller one",
    "a mask has 32 bits, a number in a condition or a claim 64, and a SID at most 15 sub-authorities",
);

pub(crate) const ODD_ENTRY: RemedyRow = (
    "another kind of entry",
    "an allow or a deny",
    "verdict and why take it, and print, sort, tobin, frombin, show and diff",
);

pub(crate) const OBJECT_ENTRY: RemedyRow = (
    "an entry for object types or with a condition",
    "an allow or a deny",
    "write --object before the command, which takes it then, but leaves out what is made in a container",
);

pub(crate) const EACH: RemedyRow = (
    "a descriptor",
    "an argument after it",
    "each takes the descriptor from the line: leave it out",
);

/// What is left out under `--whole`, where lines are answered.
pub(crate) const SACLS: &str =
    "a line's SACL, by which Windows may deny what is granted here, and CR of its entries are left out";

/// What a comparison of objects leaves out under `--whole`, where lines are answered.
pub(crate) const ALL_BUT_LABELS: &str =
    "all of a line's SACL but the label, and CR of its entries, are left out: Windows may deny what is granted here";

/// What a verdict leaves out under `--whole`, where lines are answered.
pub(crate) const POLICIES: &str =
    "a line's central policies, trust labels and access filters, by which Windows may deny more, are left out";

/// What `--without-bits` leaves out, where lines are answered.
pub(crate) const NO_BITS: &str = "what a line's header has that SDDL has no word for is left out";

/// What `--without-bits` leaves out without `--whole`.
pub(crate) const UNNAMED_BITS: &str =
    "what the header has that SDDL has no word for is left out: --whole names it";

/// What `--object` leaves out, where lines are answered.
pub(crate) const NO_CHILDREN: &str =
    "what a line's entries pass on to what is made in a container is left out";

pub(crate) const CHILDREN: &str =
    "what is made in a container isn't looked at: entries with OI or CI may count there (--below looks at it)";

/// The line that says a row. The only error is out of memory.
pub(crate) fn row_line(alloc: Global, row: RemedyRow) -> Result<String, AllocError> {
    let (found, expected, remedy) = row;
    format!(in alloc; "found {found}, expected {expected}: {remedy}\n")
}
