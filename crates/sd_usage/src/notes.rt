//! The end of the help on each command, and on the program.

use crate::heir_notes::heir_notes;
use crate::row::{ChangeCommand, CommandName, DescriptorCommand, TextCommand};

/// The end of a command's help, before its example.
pub(crate) fn notes_of(command: CommandName) -> &'static str {
    match command {
        CommandName::Ask(TextCommand::Descriptor(question)) => descriptor_notes(question),
        CommandName::Ask(TextCommand::FromBinary) => FROM_BINARY_NOTES,
        CommandName::Ask(TextCommand::Show) => SHOW_NOTES,
        CommandName::Ask(TextCommand::Diff) => DIFF_NOTES,
        CommandName::Ask(TextCommand::Types) => TYPES_NOTES,
        CommandName::Ask(TextCommand::Change(question)) => change_notes(question),
        CommandName::Ask(TextCommand::Heir(question)) => heir_notes(question),
        CommandName::Ask(TextCommand::Rights) => RIGHTS_NOTES,
        CommandName::Ask(TextCommand::Sid) => SID_NOTES,
        CommandName::Script => SCRIPT_NOTES,
        CommandName::Serve => SERVE_NOTES,
        CommandName::Audit => AUDIT_NOTES,
        CommandName::Each => EACH_NOTES,
    }
}

fn descriptor_notes(question: DescriptorCommand) -> &'static str {
    match question {
        DescriptorCommand::Verdict => VERDICT_NOTES,
        DescriptorCommand::Why => WHY_NOTES,
        DescriptorCommand::Who => WHO_NOTES,
        DescriptorCommand::Compare => COMPARE_NOTES,
        DescriptorCommand::Lint => LINT_NOTES,
        DescriptorCommand::Print => PRINT_NOTES,
        DescriptorCommand::Sort => SORT_NOTES,
        DescriptorCommand::ToBinary => TO_BINARY_NOTES,
    }
}

fn change_notes(question: ChangeCommand) -> &'static str {
    match question {
        ChangeCommand::Replace => REPLACE_NOTES,
        ChangeCommand::Remove => REMOVE_NOTES,
        ChangeCommand::Protect => PROTECT_NOTES,
        ChangeCommand::Unprotect => UNPROTECT_NOTES,
    }
}

pub(crate) const NOTES: &str = "\
Options go before the command, and before 'each' those of its command except '--stdin'.
'sdstore help COMMAND' has the help on a command.

Statuses:
  0  the text was printed, the rights were granted, or the script was carried out to its end
  1  an argument is invalid: its fault was printed, and standard error names the argument; or a
     verdict other than granted, a finding of 'lint', a line that 'each' answered with status 1; no
     line of a script was carried out, an answer that it expects wasn't given, or with '--strict' a
     line has a fault or was refused, or an import isn't answered 'ok'
  2  the arguments aren't a valid command line
  3  out of memory, an input error, an input or line that is too long, an output error, or no
     answers from the workers of an audit

Example:
  sdstore verdict 'D:(A;;FR;;;WD)' S-1-5-21-1-2-3-1001 0x1 WD";

const SHOW_NOTES: &str = "\
A first '--' after 'show' is dropped, and everything after it is an argument. Options go before
'show': 'sdstore help' lists them.

Prints a line for each fact: the owner, the group, each list, and each entry in its order, of every
type, of the DACL and then of the SACL. Masks have the names of a kind of object after '--names'.

Statuses:
  0  the lines were printed
  1  an invalid argument
  2  the arguments aren't a valid command line
  3  out of memory, or an output error";

const DIFF_NOTES: &str = "\
A first '--' after 'diff' is dropped, and everything after it is an argument. Options go before
'diff': 'sdstore help' lists them. 'each diff NEW' takes OLD from each line.

Prints 'same', or a line for each thing that differs, in the words of 'sdstore show': entries that
only one of the two has, and entries that moved. It says what the descriptors have, and nothing of
what users gain or lose by it: that is 'sdstore compare'.

Statuses:
  0  same
  1  a difference, or an invalid argument
  2  the arguments aren't a valid command line
  3  out of memory, or an output error";

const REPLACE_NOTES: &str = "\
A first '--' after 'replace' is dropped, and everything after it is an argument. Options go before
'replace': 'sdstore help' lists them. 'each replace OLD NEW' takes SDDL from each line.

NEW stands in the place of OLD as the owner, as the group, and in each entry of the DACL and the SACL,
of every type; all else stays. A text without OLD is printed as it was given. Where the data of an
entry has OLD, as a condition, the answer is a fault: it would stay there.

Statuses:
  0  the descriptor was printed
  1  an invalid argument, OLD in the data of an entry, or a descriptor that has no text or no room
  2  the arguments aren't a valid command line
  3  out of memory, or an output error";

const REMOVE_NOTES: &str = "\
A first '--' after 'remove' is dropped, and everything after it is an argument. Options go before
'remove': 'sdstore help' lists them. 'each remove SID' takes SDDL from each line.

The entries of the DACL and the SACL that are for SID go, of every type; all else stays, and a list
without entries stays a list. A text without such an entry is printed as it was given. Standard error
says where SID stays:
  sdstore: SDDL: the SID stays the owner
Where the data of an entry has SID, as a condition, the answer is a fault: it would stay there.

Statuses:
  0  the descriptor was printed
  1  an invalid argument, SID in the data of an entry, or a descriptor that has no text
  2  the arguments aren't a valid command line
  3  out of memory, or an output error";

const PROTECT_NOTES: &str = "\
A first '--' after 'protect' is dropped. Options go before 'protect': 'sdstore help' lists them.

Sets P of the DACL, and its inherited entries become its own, as 'icacls /inheritance:d' does. The
SACL stays. A text that says so already is printed as it was given.

Statuses:
  0  the descriptor was printed
  1  an invalid argument, or a descriptor that has no text, as one without a DACL
  2  the arguments aren't a valid command line
  3  out of memory, or an output error";

const UNPROTECT_NOTES: &str = "\
A first '--' after 'unprotect' is dropped. Options go before 'unprotect': 'sdstore help' lists them.

Clears P of the DACL, as 'icacls /inheritance:e' does: which entries it then inherits, its parent
decides, which isn't known here. A text without P is printed as it was given.

Statuses:
  0  the descriptor was printed
  1  an invalid argument, or a descriptor that has no text
  2  the arguments aren't a valid command line
  3  out of memory, or an output error";

const VERDICT_NOTES: &str = "\
A first '--' after 'verdict' is dropped, and everything after it is an argument: write
'sdstore verdict -- \"$sddl\" ..' for untrusted text. Options go before 'verdict': 'sdstore help'
lists them.

Generic rights are mapped by '--mapping KIND', and without it as those of a file:
  file     GR 0x120089  GW 0x120116  GX 0x1200a0  GA 0x1f01ff  also 'folder', 'share'
  ds       GR 0x20094   GW 0x20028   GX 0x20004   GA 0xf01ff   an object of Active Directory
  key      GR 0x20019   GW 0x20006   GX 0x20019   GA 0xf003f
  service  GR 0x2008d   GW 0x20002   GX 0x20170   GA 0xf01ff
  scm      GR 0x20014   GW 0x20022   GX 0x20009   GA 0xf003f   the service control manager
  printer  GR 0x20008   GW 0x20008   GX 0x20008   GA 0xf000c
  process  GR 0x20410   GW 0x20bea   GX 0x121001  GA 0x1fffff
  section  GR 0x20005   GW 0x20002   GX 0x20008   GA 0xf001f
  token    GR 0x20008   GW 0x200e0   GX 0x20000   GA 0xf01ff
  R,W,X,A  these four masks, each written as MASK and within 0x1fffff
MAXIMUM_ALLOWED, 0x02000000, requests all rights that are granted. It has no name in SDDL.

With '--whole', where a central policy, a trust label or an access filter of the SACL may deny what
is granted, the verdict is, with status 1:
  granted 0x1, the rest of the SACL left out

Statuses:
  0  granted
  1  another verdict, or an invalid argument
  2  the arguments aren't a valid command line
  3  out of memory, or an output error";

const WHY_NOTES: &str = "\
A first '--' after 'why' is dropped, and everything after it is an argument. Options go before
'why': 'sdstore help' lists them.

Prints the verdict of 'sdstore verdict', with its status, then a line for each reason with all the
bits that have it:
  granted 0x120089 by entry 2 (A;;FR;;;BU) as S-1-5-32-545
  denied 0x10000 by no entry
MAXIMUM_ALLOWED, 0x02000000, requests all rights that are granted. With it the lines also cover all
rights below 0x200000, granted or denied. With '--whole' the last line may be, with status 1:
  of the DACL and the label alone: the rest of the SACL is left out

Statuses:
  0  granted
  1  another verdict, that last line, or an invalid argument
  2  the arguments aren't a valid command line
  3  out of memory, or an output error";

const TYPES_NOTES: &str = "\
A first '--' after 'types' is dropped, and everything after it is an argument. Options go before
'types': 'sdstore help' lists them. It goes only with '--whole'.

Prints the verdict on each node, in the order of TREE, by [MS-DTYP] 2.5.3.2 (ObjectTypeList):
  denied 0x10 at 0:bf967aba-0de6-11d0-a285-00aa003049e2
  granted 0x10 at 1:e48d0154-bcf8-11d1-8702-00c04fb96050
A right is granted on a node with others below it only if it is on all of these. MAXIMUM_ALLOWED,
0x02000000, requests all rights that are granted. The last line may be, with status 1:
  of the DACL and the label alone: the rest of the SACL is left out

Statuses:
  0  granted on each node
  1  another verdict, that last line, or an invalid argument
  2  the arguments aren't a valid command line
  3  out of memory, or an output error";

const WHO_NOTES: &str = "\
A first '--' after 'who' is dropped, and everything after it is an argument. Options go before
'who': 'sdstore help' lists them.

Prints a line for each part of the rights and each alternative:
  0x89 to S-1-5-32-545
  0x120000 to S-1-1-0 unless S-1-5-32-546
  0x60000 to S-1-5-32-544 as the owner
  0x1 to everyone
  0xfe00 to nobody
After '--below' also, of what is made in it, if it is a container:
  new objects: 0x89 to S-1-5-32-545
  new containers: nothing is inherited
A user without privileges has the rights if an alternative holds: its SID is the user's or an
enabled group's, and none of those after 'unless' is the user's, a group's or a deny-only group's.
MAXIMUM_ALLOWED, 0x02000000, asks about all rights. Bits from 0x200000 on are left out.

Statuses:
  0  the lines were printed
  1  object types were left out, as the last line says, or an invalid argument
  2  the arguments aren't a valid command line
  3  out of memory, or an output error";

const COMPARE_NOTES: &str = "\
A first '--' after 'compare' is dropped, and everything after it is an argument. Options go before
'compare': 'sdstore help' lists them. 'each compare NEW' takes OLD from each line.

Prints 'same', or a line for each part of the rights that some user gains or loses, with such a
user, as arguments of 'sdstore verdict' after the descriptor and the mask:
  gained 0x1 by S-1-5-32-545 S-1-5-32-546=deny
  lost 0x60000 by S-1-5-32-544
  new objects: gained 0x1 by S-1-1-0
The last is about what is made in it, if it is a container, and left out with '--object'.
'everyone' is any user that neither descriptor names.
With '--whole' the lines are about the object types of '--type', or without one about the whole
object, as in Active Directory. Where entries are passed on to a class of objects alone, those about
what is made in it begin with 'class C: ' or 'other classes: '. The last ones may be:
  label: was high no-write-up, is medium no-write-up
  of the DACL and the label alone: the rest of the SACL is left out
  of the whole object alone: object types are left out
  of the object alone: what is made in it is left out

Statuses:
  0  same
  1  another answer, or an invalid argument
  2  the arguments aren't a valid command line
  3  out of memory, or an output error";

const LINT_NOTES: &str = "\
A first '--' after 'lint' is dropped, and everything after it is an argument. Options go before
'lint': 'sdstore help' lists them.

Prints a line for each finding, or 'clean':
  no DACL grants everything
  a null DACL grants everything
  entry N (..) is out of order behind entry M
  entry N (..) names no right
  entry N (..) is inherited by nothing
  entry N (..) repeats entry M
  entry N (..) has no effect
  entry N (..) limits the owner
After '--risks', or '--concern', also:
  an empty DACL grants nothing
  the owner SID has no way to read
  SID is granted full-control, or write, delete, change-permissions
  new objects: SID is granted .., or new containers: .., of what is made in it
  entry N (..) names a SID of no known kind
  the owner SID is of no known kind
  the group SID is of no known kind
Without all entries that have no effect, each check has the same verdict, of what is made in it too.
With '--object' nothing is made in it: entries are printed without OI and CI. With '--whole' too the
findings are of entries of every type, printed as they stand, for the object types of '--type', or
without one for the whole object, and other lines may be:
  SID may be granted full-control, by conditions
  of the whole object alone: object types are left out

Statuses:
  0  clean
  1  a finding, object types that were left out, or an invalid argument
  2  the arguments aren't a valid command line
  3  out of memory, or an output error";

const PRINT_NOTES: &str = "\
A first '--' after 'print' is dropped. Options go before 'print': 'sdstore help' lists them.";

const SORT_NOTES: &str = "\
A first '--' after 'sort' is dropped. Options go before 'sort': 'sdstore help' lists them.

The explicit denies go first, then the explicit allows, then what was inherited; entries of one kind
keep their order. Standard error has a line for each entry that moves:
  sdstore: SDDL: entry 2 (D;;FW;;;BG) moves before entry 1";

const TO_BINARY_NOTES: &str = "\
A first '--' after 'tobin' is dropped. Options go before 'tobin': 'sdstore help' lists them.";

const FROM_BINARY_NOTES: &str = "\
A first '--' after 'frombin' is dropped. Options go before 'frombin': 'sdstore help' lists them.

With '--loose' bytes may be separated by tabs, spaces, commas, backslashes and line ends, and each
part may begin with '0x', as in a .reg file or a dump.";

const RIGHTS_NOTES: &str = "\
A first '--' after 'rights' is dropped. Options go before 'rights': 'sdstore help' lists them.

Prints the mask, the name of the permission that it is, if any, and its rights, by the names of
winnt.h, winsvc.h, winspool.h and iads.h. Bits without a name are a number:
  0x100116 Write: FILE_WRITE_DATA+FILE_APPEND_DATA+FILE_WRITE_EA+FILE_WRITE_ATTRIBUTES+SYNCHRONIZE
  0x10201: FILE_READ_DATA+DELETE+0x200
The rights are those of a file, or of the kind of '--mapping' before 'rights'; with R,W,X,A only
rights of all objects have names. With '--names' MASK may be names joined by '+', as 'Read &
execute' or FR+DELETE.

Statuses:
  0  the line was printed
  1  an invalid argument
  2  the arguments aren't a valid command line
  3  out of memory, or an output error";

const SID_NOTES: &str = "\
A first '--' after 'sid' is dropped. Options go before 'sid': 'sdstore help' lists them.

Statuses:
  0  the SID was printed
  1  an invalid argument
  2  the arguments aren't a valid command line
  3  out of memory, or an output error";

const SCRIPT_NOTES: &str = "\
Each line is a command, and has one line of output. An empty line and one that begins with '#' have
none. 'why', 'find', 'list', 'dump', 'who' and 'review' have several, the last of which is empty:
  open N SDDL                          opens the store with a root, and readers 0 to N - 1
  addc PATH SDDL, addo PATH SDDL       adds a container, an object
  owner PATH SID, group PATH SID       sets the node's owner, its group
  dacl PATH SDDL                       sets the node's own DACL
  remove PATH                          removes a node without children
  protect PATH                         protects the node: its inherited entries become its own
  move PATH PATH                       moves the node, and all below it, to the second path, where they
                                       inherit again: Windows keeps their entries within a volume;
                                       'ok reinherited' says that the node's entries are others then
  import KIND PATH SDDL                adds a 'container' or 'object' (KIND) with its descriptor from
                                       elsewhere, in canonical order; in place of the entries that it
                                       inherited there are those that it inherits here: 'ok differs'
                                       says that they are others
  publish                              publishes all pending edits
  tell                                 prints the length of the published journal
  learn I L                            informs reader I of a journal of length L
  check I PATH USER MASK [WORD]...     asks, as reader I, whether the user is granted the mask
  why I PATH USER MASK [WORD]...       asks, as reader I, for the reasons of such a check
  show I PATH                          asks, as reader I, for the node's descriptor
  find I PATH USER MASK [WORD]...      asks, as reader I, which nodes at and below the path grant it
  delete I PATH USER [WORD]...         asks, as reader I, whether the user may delete the node
  list [PATH]                          lists the published nodes at and below the path, or all
  who PATH MASK [WORD]...              prints whom the published node grants which rights
  review [PATH]                        prints which users gain or lose rights by the pending edits
  dump                                 prints the published tree as a script that makes it
  expect ANSWER                        compares the last answer with ANSWER, its lines joined by '\\n'
  expect-only PATH MASK [SID]...       compares whom the published node itself grants rights of the
                                       mask with the SIDs: 'ok' if it is nobody else

Generic rights are mapped by '--mapping KIND' before 'script', and without it as those of a file:
'sdstore help verdict' lists the kinds. With '--percent' before 'script' paths are percent-encoded.
'--nodes N' and '--edits N' before 'script' limit the tree and its journal.

Statuses:
  0  the script was carried out to its end, even if some lines had a fault or were refused
  1  each line had a fault or was refused, or there was none; an expected answer wasn't given; with
     '--strict', a line had a fault or was refused, or an import wasn't answered 'ok': standard error
     reports the first line of each kind; or the value of an option is invalid: its fault was printed,
     and no input was read
  2  the arguments aren't a valid command line
  3  out of memory, an input error, more than 16777216 bytes of input, or an output error";

const SERVE_NOTES: &str = "\
Has the output of 'sdstore script'. Every complete line is answered before more input is read: a
program can write a line, wait for its answer, and write the next. The number of lines is unlimited.
Options go before 'serve', as before 'script', and '--ids' after it.

With '--ids' the first word of a line is its id, which comes before each line of its answer:
  17 check 0 /a SY FR WD               17 seen 1 granted 0x120089
So a program that was interrupted before it read an answer can't take it for that of its next line.
An id has printable ASCII characters, and doesn't begin with '#'. A line without one changes nothing,
and its answer has none. An id alone isn't answered.

Statuses:
  0  the script was carried out to its end, even if some lines had a fault or were refused
  1  each line had a fault or was refused, or there was none; an expected answer wasn't given; with
     '--strict', a line had a fault or was refused, or an import wasn't answered 'ok': standard error
     reports the first line of each kind; or the value of an option is invalid: its fault was printed,
     and no input was read
  2  the arguments aren't a valid command line
  3  out of memory, an input error, a line of more than 16777216 bytes, or an output error. The
     complete lines before are answered; after an output error a prefix of the answers was written";

const AUDIT_NOTES: &str = "\
Has the output of 'sdstore script', except for these lines:
  open N SDDL                          opens the store with a reader for each worker
  check I PATH USER MASK [WORD]...     is answered at the end, for any number I
  tell, learn, why, find, delete, show, list, dump, who, review, expect, expect-only
                                       are faults
At the end all accepted edits are published, and then the checks are answered, in order.
Options go before 'audit', as before 'script'.

Statuses:
  0  the audit was carried out to its end, even if some lines had a fault or were refused
  1  each line had a fault or was refused, or there was none; an expected answer wasn't given; with
     '--strict', a line had a fault or was refused, or an import wasn't answered 'ok': standard error
     reports the first line of each kind; or the value of an option is invalid: its fault was printed,
     and no input was read
  2  the arguments aren't a valid command line
  3  out of memory, an input error, more than 16777216 bytes of input, an output error, or no
     answers from the workers";

const EACH_NOTES: &str = "\
Each line of standard input is the first argument of COMMAND, as a descriptor, and has one answer,
in order, a fault too. Every complete line is answered before more input is read: a program can
write a line, wait for its answer, and write the next. Answers of 'why', 'types', 'who', 'compare',
'lint', 'show' and 'diff', which may have several lines, end with an empty line.

A line ends with a line feed, and one carriage return before it is dropped; with '-0' it ends with a
zero byte. The last line may lack its end. A byte order mark before the first line is dropped. A
blank line is answered by 'fault blank', one of more than 16777216 bytes by 'fault long', and one
that isn't UTF-8 by 'fault utf8'.

With '--key' a line is a key, a tab and the argument, and each line of its answer begins with the key
and a tab, so that answers can be joined with what their lines came from:
  /a<TAB>D:(A;;FR;;;WD)                /a<TAB>granted 0x120089
A key is any text without a tab and a line feed. A line without one is answered by 'fault key'.

With '--pairs' a line is OLD and NEW of 'compare' or 'diff', with a tab between them, after its key.
One without that tab is answered by 'fault pair'.

'-0', '--key' and '--pairs' go between 'each' and COMMAND, all other options before 'each'. After COMMAND
everything is an argument, except a first '--', which is dropped.

Statuses:
  0  each line was answered with status 0
  1  a line was answered with status 1, or there was none, as standard error says
  2  the arguments aren't a valid command line
  3  out of memory, an input error, or an output error";
