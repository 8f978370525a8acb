//! The forms of parts of lines that scripts alone have, beside those of `sd_answer`. docs/JSON.md has the same table.

use sd_line::LineForm;

// After `opened N`: that the root differs from its text.
pub const DIFFERS: &str = "{entries}";

// Lines that make nodes which keep what they had inherited elsewhere.
pub const ADD_STORED_CONTAINER: LineForm = ("addc", "addc {path} {sddl} {inherited} {offer}");

pub const ADD_STORED_OBJECT: LineForm = ("addo", "addo {path} {sddl} {inherited} {offer}");
