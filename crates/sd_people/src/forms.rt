//! The forms of lines about people: docs/JSON.md has the same table, and says what they mean.

use sd_line::LineForm;

// By which groups a user belongs to the one that grants, after what grants.
pub const BY_WAY_OF: &str = " by way of{way}";

// Whose right it is, at the end of the line that says by what it is granted.
pub const PERSON: &str = " to {user} {name}";

// What a user gains and loses by a change, and who it is, at the end of the line.
pub const GAINED_BY: LineForm = ("gained", "gained {mask}");

pub const LOST_BY: LineForm = ("lost", "lost {mask}");

pub const BY_PERSON: &str = " by {user} {name}";

// The names of the SIDs of a line, in JSON.
pub const NAMES: &str = "{names}";
