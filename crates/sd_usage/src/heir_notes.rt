//! The end of the help on the commands about what an object inherits.

use crate::row::HeirCommand;

pub(crate) fn heir_notes(question: HeirCommand) -> &'static str {
    match question {
        HeirCommand::Create => CREATE_NOTES,
        HeirCommand::Inherit => INHERIT_NOTES,
        HeirCommand::Stale => STALE_NOTES,
    }
}

const CREATE_NOTES: &str = "\
A first '--' after 'create' is dropped, and everything after it is an argument. Options go before
'create': 'sdstore help' lists them. 'each create CREATOR USER GROUP' takes PARENT from each line.

Prints what CreateSecurityDescriptor of [MS-DTYP] 2.5.3.4 gives a container that is made in another,
or with '--object' an object, as a file; with DACL_AUTO_INHERIT and SACL_AUTO_INHERIT, as NTFS does.
An owner that CREATOR gives has to be USER. Where CREATOR gives no DACL and PARENT passes down no
entry, the DACL is that of a token: all rights for USER and SYSTEM. Standard error says so:
  sdstore: PARENT: passes down no entry: the DACL grants all rights to USER and SYSTEM
Entries for a class, as of a directory's users, wait in a container, and are nothing to an object.

Statuses:
  0  the descriptor was printed
  1  an invalid argument, an owner that isn't USER, or a list without room for its entries
  2  the arguments aren't a valid command line
  3  out of memory, or an output error";

const INHERIT_NOTES: &str = "\
A first '--' after 'inherit' is dropped, and everything after it is an argument. Options go before
'inherit': 'sdstore help' lists them. 'each inherit PARENT' takes CHILD from each line.

In the DACL and the SACL of CHILD, a container or with '--object' an object, as a file, what PARENT
passes down takes the place of the inherited entries, as after Windows propagates a change of PARENT.
The others stay, before these. A list that is protected or null stays as it is, and standard error
says so:
  sdstore: CHILD: the DACL is protected: it inherits nothing
CHILD's owner and group take the places of CREATOR OWNER and CREATOR GROUP.
Entries for a class, as of a directory's users, wait in a container, and are nothing to an object.

Statuses:
  0  the descriptor was printed
  1  an invalid argument, CHILD without an owner or a group, or a list without room for its entries
  2  the arguments aren't a valid command line
  3  out of memory, or an output error";

const STALE_NOTES: &str = "\
A first '--' after 'stale' is dropped, and everything after it is an argument. Options go before
'stale': 'sdstore help' lists them. 'each stale PARENT' takes CHILD from each line.

Prints 'same' where CHILD is what 'sdstore inherit' prints, or a line for each thing that differs, in
the words of 'sdstore diff'. It is also 'same' where a list inherits nothing, as a protected one, and
standard error says so:
  sdstore: CHILD: the DACL is protected: it inherits nothing

Statuses:
  0  same
  1  a difference, or what 'sdstore inherit' has status 1 for
  2  the arguments aren't a valid command line
  3  out of memory, or an output error";
