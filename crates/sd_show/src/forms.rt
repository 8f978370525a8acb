//! The forms of all lines: their kinds, and their words, in which each `{name}` stands for a value. docs/JSON.md has
//! the same table, and says what they mean.

use sd_line::LineForm;

// A verdict on a whole descriptor of which more than the label may deny.
pub const SACL_LEFT_OUT: LineForm = (
    "SACL left out",
    "granted {mask}, the rest of the SACL left out",
);

// Owner, group, and the byte of a resource manager.
pub const OWNER: LineForm = ("owner", "owner {sid}{control}");

pub const NO_OWNER: LineForm = ("owner absent", "owner absent{control}");

pub const GROUP: LineForm = ("group", "group {sid}{control}");

pub const NO_GROUP: LineForm = ("group absent", "group absent{control}");

pub const RESOURCE_MANAGER: LineForm = ("resource manager", "resource manager {byte}{control}");

// The DACL and the SACL, before their entries.
pub const DACL: LineForm = ("dacl", "dacl{control}");

pub const DACL_EMPTY: LineForm = (
    "dacl empty",
    "dacl empty{control}: nothing is granted but what ownership and privileges give",
);

pub const DACL_ABSENT: LineForm = (
    "dacl absent",
    "dacl absent{control}: everyone is granted everything",
);

pub const DACL_NULL: LineForm = (
    "dacl null",
    "dacl null{control}: everyone is granted everything",
);

pub const SACL: LineForm = ("sacl", "sacl{control}");

pub const SACL_ABSENT: LineForm = ("sacl absent", "sacl absent{control}");

pub const SACL_NULL: LineForm = ("sacl null", "sacl null{control}");

// An entry: of which list, and which one, counted from 1.
pub const ENTRY: LineForm = ("entry", "{acl} entry {entry}");

pub const REMOVED: LineForm = ("entry removed", "removed {acl} entry {entry}:");

pub const ADDED: LineForm = ("entry added", "added {acl} entry {entry}:");

pub const ENTRY_MOVED: LineForm = (
    "entry moved",
    "moved {acl} entry {entry}, was {from_entry}:",
);

// What an entry does.
pub const ACCESS: &str = " {does} {mask} to {sid}";

pub const AUDIT: &str = " {does} {outcome} of {mask} by {sid}";

pub const LABEL: &str = " {does} {sid}{policy}";

pub const OF_SID: &str = " {does} {sid}";

pub const LIMIT: &str = " {does} {mask} for {sid}";

pub const OTHER_MASK: &str = ", mask {mask}";

pub const OPAQUE: &str = " of type {type}";

// Where, for which types of objects, under which condition or with which data, and its other flags.
pub const ON: &str = " on {on}";

pub const OBJECT_TYPE: &str = " for object type {object_type}";

pub const INHERITED_TYPE: &str = " inherited by object type {inherited_type}";

pub const CONDITION: &str = " if {condition}";

pub const UNKNOWN_CONDITION: &str = " if an unknown condition ({data}) holds";

pub const CLAIM: &str = " {claim}";

pub const DATA: &str = " with data {data}";

pub const FLAGS: &str = ",{flags}";

// What changed.
pub const CHANGED: LineForm = ("changed", "{part} was {was}, is {is}");

pub const BYTE_CHANGED: LineForm = (
    "resource manager changed",
    "resource manager was {was_byte}, is {byte}",
);

pub const SET: LineForm = ("set", "{part} is {word}, was not");

pub const CLEARED: LineForm = ("cleared", "{part} was {word}, is not");
