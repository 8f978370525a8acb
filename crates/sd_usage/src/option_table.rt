//! The table of options.

use crate::row::{Beside, OptionName, OptionRow, ProgramOption, Value};

/// Of questions about a whole descriptor: of `who` without `--below`, and of `lint`, which alone takes `--risks`, with
/// `--object`.
const OF_WHOLE: Beside = Beside::With(
    OptionName::Whole,
    OptionName::Below,
    OptionName::Risks,
    OptionName::Object,
);

/// The options before a command, in the order in which help lists them.
pub const OPTIONS: &[OptionRow] = &[
    (
        "--stdin",
        ProgramOption {
            name: OptionName::Stdin,
            value: None,
            beside: Beside::Any,
        },
        "\
standard input takes the place of the first argument: in UTF-8, or in UTF-16 after a byte order
mark, and without a line end at its end",
    ),
    (
        "--names",
        ProgramOption {
            name: OptionName::Names,
            value: None,
            beside: Beside::Any,
        },
        "\
prints masks by the names of their kind of object, as FR+WD instead of 0x160089, takes such names as
MASK, and prints entries with names of that kind alone",
    ),
    (
        "--whole",
        ProgramOption {
            name: OptionName::Whole,
            value: None,
            beside: Beside::Any,
        },
        "\
takes descriptors with a SACL and with entries of every type. What prints a descriptor prints all of
it, and what has no text is a fault; 'verdict', 'why' and 'types' look at the label, the claims, the
object types and the conditions, 'compare' at the label, and 'compare', 'who' without '--below' and
'lint' with '--object' at the object types and the conditions; other questions and a script leave the
SACL out, which is reported on standard error, of a script by the answer 'ok differs', and an object
or a conditional entry in a DACL is a fault there",
    ),
    (
        "--without-bits",
        ProgramOption {
            name: OptionName::WithoutBits,
            value: None,
            beside: Beside::Any,
        },
        "\
under '--whole' drops the control bits that SDDL has no word for, as OD, and the resource manager's
byte, and reports it on standard error",
    ),
    (
        "--require-dacl",
        ProgramOption {
            name: OptionName::RequireDacl,
            value: None,
            beside: Beside::Any,
        },
        "a descriptor without a DACL, or with a null one, is a fault: either grants everything",
    ),
    (
        "--below",
        ProgramOption {
            name: OptionName::Below,
            value: None,
            beside: Beside::Any,
        },
        "also prints to whom the rights of what is made in the object are granted, if it is a container",
    ),
    (
        "--object",
        ProgramOption {
            name: OptionName::Object,
            value: None,
            beside: Beside::Any,
        },
        "\
the descriptor is that of an object and of no container, as of a file: the flags OI and CI of its
entries say nothing, and are left out, also where plain entries are printed; then 'lint' takes object
and conditional entries under '--whole'; of 'create', 'inherit' and 'stale' that inherits is an object",
    ),
    (
        "--risks",
        ProgramOption {
            name: OptionName::Risks,
            value: None,
            beside: Beside::Any,
        },
        "\
also reports risks: what Everyone and SIDs of nearly everybody, as Domain Users, are granted to
change of the object and of what is made in it, an empty list, an owner without a way to read, and
SIDs of no known kind",
    ),
    (
        "--concern",
        ProgramOption {
            name: OptionName::Concern,
            value: Some(Value::Sids),
            beside: Beside::Any,
        },
        "\
reports risks as '--risks' does, also of what these SIDs are granted: 1 to 16 SIDs or aliases with
commas between them, as DU,S-1-5-21-1-2-3-1104",
    ),
    (
        "--base64",
        ProgramOption {
            name: OptionName::Base64,
            value: None,
            beside: Beside::Without(OptionName::Loose),
        },
        "the bytes are in base64",
    ),
    (
        "--loose",
        ProgramOption {
            name: OptionName::Loose,
            value: None,
            beside: Beside::Without(OptionName::Base64),
        },
        "\
the bytes are as other tools write them: in hexadecimal, in parts that tabs, spaces, commas,
backslashes and line ends separate, each with or without '0x'; or a whole value of a .reg file, of
LDIF, or of getfattr, also Samba's security.NTACL",
    ),
    (
        "--percent",
        ProgramOption {
            name: OptionName::Percent,
            value: None,
            beside: Beside::Any,
        },
        "\
paths are percent-encoded, in the input and in the output: '%' and two hexadecimal digits are a
byte",
    ),
    (
        "--strict",
        ProgramOption {
            name: OptionName::Strict,
            value: None,
            beside: Beside::Any,
        },
        "\
the status is 1 if a line has a fault or is refused, or an import isn't answered 'ok', and standard
error reports the first line of each kind",
    ),
    (
        "--nodes",
        ProgramOption {
            name: OptionName::Nodes,
            value: Some(Value::Number),
            beside: Beside::Any,
        },
        "the most nodes of the tree, the root counted: 1 to 16777216, by default 65536",
    ),
    (
        "--edits",
        ProgramOption {
            name: OptionName::Edits,
            value: Some(Value::Number),
            beside: Beside::Any,
        },
        "the most edits of its journal: 0 to 4294967296, by default 1048576",
    ),
    (
        "--domain",
        ProgramOption {
            name: OptionName::Domain,
            value: Some(Value::Sid),
            beside: Beside::Any,
        },
        "\
the aliases of a domain's accounts and groups, as DA, are SIDs of the domain with this SID:
S-1-5-21 and three numbers, as S-1-5-21-1-2-3",
    ),
    (
        "--aliases",
        ProgramOption {
            name: OptionName::Aliases,
            value: None,
            beside: Beside::Any,
        },
        "\
the aliases of newer versions of Windows are aliases too: AA, ES, HA, MS, RA, RM and UD, and of a
domain AP, CN, KA and RO",
    ),
    (
        "--mapping",
        ProgramOption {
            name: OptionName::Mapping,
            value: Some(Value::Kind),
            beside: Beside::Any,
        },
        "\
the generic mapping, that of a 'file' (the default), 'folder', 'share', 'ds' (an object of Active
Directory), registry 'key', 'service', 'scm' (their manager), 'printer', 'process', 'section' or
'token', or R,W,X,A, the four masks of GR, GW, GX and GA",
    ),
    (
        "--logon",
        ProgramOption {
            name: OptionName::Logon,
            value: Some(Value::Logon),
            beside: Beside::Any,
        },
        "\
adds the groups that Windows gives to a user who logs on so, 'interactive', 'network', 'batch',
'service' or 'anonymous', as Everyone, Authenticated Users and NETWORK",
    ),
    (
        "--accounts",
        ProgramOption {
            name: OptionName::Accounts,
            value: Some(Value::File),
            beside: Beside::Any,
        },
        "\
USER, WORDs and groups may be names of accounts, as EXAMPLE\\alice, alice@example.test or alice, and
USER has the groups that the file gives it, by lines 'user SID NAME', 'group SID NAME', 'member
GROUP-SID MEMBER-SID', 'primary USER-SID GROUP-SID' and 'disabled USER-SID'; without '--logon' also
Everyone and Authenticated Users",
    ),
    (
        "--type",
        ProgramOption {
            name: OptionName::Type,
            value: Some(Value::Guid),
            beside: OF_WHOLE,
        },
        "\
the object type that is asked about, as bf9679c0-0de6-11d0-a285-00aa003049e2, up to five times: the
class, the property set, the property or the extended right; without it the whole object is asked
about. Before 'lint' it goes beside '--object'",
    ),
    (
        "--schema",
        ProgramOption {
            name: OptionName::Schema,
            value: Some(Value::File),
            beside: OF_WHOLE,
        },
        "\
the values of '--type' and the types of TREE may also be names, as member, which the file gives by
lines 'class GUID NAME', 'attribute GUID NAME', 'set GUID NAME' and 'right GUID NAME'; before 'lint'
it goes beside '--object'",
    ),
    (
        "--self",
        ProgramOption {
            name: OptionName::PrincipalSelf,
            value: Some(Value::Sid),
            beside: OF_WHOLE,
        },
        "\
the SID of the object itself, for which PRINCIPAL SELF (PS) stands in its entries; before 'lint' it
goes beside '--object'",
    ),
    (
        "--json",
        ProgramOption {
            name: OptionName::Json,
            value: None,
            beside: Beside::Any,
        },
        "\
prints each line of the answer as an object of JSON in a line, with what kind of line it is and its
words by their names",
    ),
    (
        "--color",
        ProgramOption {
            name: OptionName::Color,
            value: None,
            beside: Beside::Any,
        },
        "\
the word of each verdict is green or red, as it is in any case where standard output is a terminal
and NO_COLOR isn't set; objects of JSON have no colour",
    ),
    (
        "--caret",
        ProgramOption {
            name: OptionName::Caret,
            value: None,
            beside: Beside::Any,
        },
        "\
a message that names a byte of an argument shows the text, with a caret under that byte, as it does
in any case where standard error is a terminal",
    ),
    (
        "--strict-status",
        ProgramOption {
            name: OptionName::StrictStatus,
            value: None,
            beside: Beside::Any,
        },
        "\
the status of a fault is 4 instead of 1, so that 1 says no more than denied, different or found; of
a script as with --strict",
    ),
];

/// The options, for texts: no contract speaks of these, so their proofs don't carry the table along.
pub(crate) fn option_rows() -> &'static [OptionRow] {
    OPTIONS
}
