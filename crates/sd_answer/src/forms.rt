//! The forms of all lines: their kinds, and their words, in which each `{name}` stands for a value. docs/JSON.md has
//! the same table, and says what they mean.

use sd_line::LineForm;

// Verdicts.
pub const GRANTED: LineForm = ("granted", "granted {mask}");

pub const DENIED: LineForm = ("denied", "denied {mask}");

pub const RESERVED: LineForm = ("reserved", "reserved {mask}");

pub const EMPTY: LineForm = ("empty", "empty");

// Reasons, after a verdict.
pub const BY_ENTRY: &str = " by entry {entry} {ace} as {sid}";

pub const BY_NO: &str = " by no {no}";

pub const WITHOUT_A: &str = " without a {without}";

pub const TO_THE: &str = " to the {to}";

pub const BY: &str = " by {by}";

pub const WITHOUT: &str = " without {without}";

pub const BEYOND: &str = " beyond {beyond}";

pub const AS: &str = " as {as}";
// Reasons of the second pass of a restricted token, after a reason of the first pass.
pub const SECOND_BY_ENTRY: &str =
    ", restricted by entry {second_entry} {second_ace} as {second_sid}";

pub const SECOND_BY_NO: &str = ", restricted by no {second_no}";

/// The forms of lines of bits: the kind, and that of a line about what is made in a container; the words of the line,
/// and those of SIDs at its end, where there are some.
pub type BitsForm = (&'static str, &'static str, &'static str, &'static str);

pub const WHO: BitsForm = ("who", "who below", "{mask} to {to}", " unless{unless}");

pub const GAINED: BitsForm = ("gained", "gained below", "gained {mask} by {by}", "{with}");

pub const LOST: BitsForm = ("lost", "lost below", "lost {mask} by {by}", "{with}");

pub const AS_THE: &str = " as the {as}";

// Before a line about what is made in a container.
pub const NEW: &str = "new {new}: ";

pub const BELOW_NEW: &str = "{below} below new containers: ";

pub const NOTHING_INHERITED: LineForm = ("nothing inherited", "nothing is inherited");

// Protection from inheritance.
pub const NO_LONGER_PROTECTED: LineForm = (
    "no longer protected",
    "inheritance: was protected, is not",
);

pub const NOW_PROTECTED: LineForm = ("now protected", "inheritance: is protected, was not");

// The integrity label.
pub const LABEL_CHANGED: LineForm = ("label", "label: was {was}, is {is}");

// What an answer leaves out.
pub const WHOLE_ALONE: LineForm = (
    "whole object alone",
    "of the whole object alone: object types are left out",
);

pub const LABEL_ALONE: LineForm = (
    "DACL and label alone",
    "of the DACL and the label alone: the rest of the SACL is left out",
);

// What is doubtful.
pub const NO_DACL: LineForm = ("no DACL", "no DACL grants everything");

pub const NULL_DACL: LineForm = ("null DACL", "a null DACL grants everything");

pub const OUT_OF_ORDER: LineForm = (
    "out of order",
    "entry {entry} {ace} is out of order behind entry {behind}",
);

pub const NO_RIGHT: LineForm = ("no right", "entry {entry} {ace} names no right");

pub const NOT_INHERITED: LineForm = (
    "not inherited",
    "entry {entry} {ace} is inherited by nothing",
);

pub const REPEATED: LineForm = ("repeated", "entry {entry} {ace} repeats entry {repeats}");

pub const NO_EFFECT: LineForm = ("no effect", "entry {entry} {ace} has no effect");

pub const LIMITS_OWNER: LineForm = ("limits owner", "entry {entry} {ace} limits the owner");

pub const SAME: LineForm = ("same", "same");

pub const CLEAN: LineForm = ("clean", "clean");

// Risks.
pub const EMPTY_DACL: LineForm = ("empty DACL", "an empty DACL grants nothing");

pub const OWNER_CANNOT_READ: LineForm = ("owner cannot read", "the owner {sid} has no way to read");

pub const RISKY_GRANT: LineForm = ("risky grant", "{sid} is granted {right}");

pub const RISKY_GRANT_BELOW: LineForm = ("risky grant below", "{sid} is granted {right}");

pub const UNKNOWN_SID: LineForm = (
    "unknown SID",
    "entry {entry} {ace} names a SID of no known kind",
);

pub const UNKNOWN_OWNER: LineForm = ("unknown owner", "the owner {sid} is of no known kind");

pub const UNKNOWN_GROUP: LineForm = ("unknown group", "the group {sid} is of no known kind");

// What a store answers to a reader, after how long a journal it has seen.
pub const SEEN: &str = "seen {seen} ";

pub const NO_NODE: LineForm = ("no node", "nonode");

pub const FOUND: LineForm = ("found", "found");

pub const GRANTED_BY: LineForm = ("granted", "granted by {by}");

pub const DENIED_ALL: LineForm = ("denied", "denied");

pub const SHOWN: LineForm = ("shown", "shown {sddl}");

pub const NO_READER: LineForm = ("no reader", "noreader");

// To an edit, a publish and a notice.
pub const OPENED: LineForm = ("opened", "opened {readers}");

pub const OK: LineForm = ("ok", "ok{entries}");

pub const REFUSED: LineForm = ("refused", "refused {of}");

pub const REFUSED_NAMED: LineForm = ("refused", "refused {number} {name}");

pub const PUBLISHED: LineForm = ("published", "published {length}");

pub const TOLD: LineForm = ("told", "told {length}");

pub const LEARNED: LineForm = ("learned", "learned {floor}");

pub const NO_NOTICE: LineForm = ("no notice", "nonotice");

// Nodes, what a publish changes of them, and the lines that make them.
pub const CONTAINER: LineForm = ("container", "container {path} {sddl}");

pub const OBJECT: LineForm = ("object", "object {path} {sddl}");

pub const PATH: &str = "{path} ";

pub const NEW_NODE: LineForm = ("new", "new {path}");

pub const MOVED: LineForm = ("moved", "moved {from} {path}");

pub const GONE: LineForm = ("gone", "gone {path}");

pub const REVIEWED: LineForm = ("reviewed", "reviewed {published} {with_pending}");

pub const OPEN: LineForm = ("open", "open {readers} {sddl}");

pub const ADD_CONTAINER: LineForm = ("addc", "addc {path} {sddl}");

pub const ADD_OBJECT: LineForm = ("addo", "addo {path} {sddl}");

pub const PUBLISH: LineForm = ("publish", "publish");

// Faults.
pub const FAULT: LineForm = ("fault", "fault {of}");

pub const FAULT_NAMED: LineForm = ("fault", "fault {of} {number} {name}");

pub const FAULT_ENTRY: LineForm = ("fault", "fault {of} {entry} {name}");

pub const FAULT_AT: LineForm = ("fault", "fault {of} {number} {name} at {at}");
