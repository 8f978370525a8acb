//! The forms of lines that this crate adds, as forms.rt of `sd_answer` has the others.

use sd_line::LineForm;

// Before the end of a verdict on a node of a tree of object types.
pub const AT_NODE: &str = " at {level}:{object_type}";

// A risk of a whole descriptor, if conditions allow it.
pub const MAY_BE_GRANTED: LineForm = (
    "risky grant by conditions",
    "{sid} may be granted {right}, by conditions",
);

// Before a line about what is made in a container, where entries name classes of it.
pub const OF_CLASS: &str = "class {class}: ";

pub const OF_OTHERS: &str = "{classes} classes: ";

// What an answer about a container leaves out.
pub const OBJECT_ALONE: LineForm = (
    "object alone",
    "of the object alone: what is made in it is left out",
);
