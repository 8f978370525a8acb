//! A schema: the names of object types, as administrators know them.
//!
//! A schema file has a row a line: the GUID of a class, an attribute, a property set or a right, and a name of it. It
//! is parsed once; then a GUID is found by its name, and a text that names object types becomes one of their GUIDs.
//!
//! ```text
//! let schema = Schema::read(alloc, text)?;
//! let member = schema.guid_named("member")?;
//! let tree = schema.tree_text(alloc, "0:group,1:member")?;
//! // 0:bf967a9c-0de6-11d0-a285-00aa003049e2,1:bf9679c0-0de6-11d0-a285-00aa003049e2
//! ```
#![tactic(auto)]

mod fault;
mod line;
mod names;
mod read;
mod row;
mod schema;
#[cfg(test)]
mod tests;
mod texts;
mod words;

pub use fault::{SchemaError, SchemaFault};
pub use names::TypeNameFault;
pub use schema::Schema;
pub use texts::{NodeError, TypeTextError};
pub use words::WordError;
