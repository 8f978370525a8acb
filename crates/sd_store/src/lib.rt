//! The store of many threads: one writer that edits and publishes, and up to 64 checkers, whose reads are wait-free.
//!
//! Each check takes effect at one moment, by the journal that is published then; that journal extends all that the same
//! checker has seen or learned of. A publish makes all pending edits seen at once. docs/STORE.md has the promises.
//!
//! ```text
//! let (mut writer, mut checkers) = start(&rt, alloc, Opened::new(), &mapping, &root, 2)?;
//! let answer = asked(&rt, &mut writer, &mut checkers[0]);
//! writer.end(&rt);
//!
//! // in `asked`, whose `?` leads back to where the writer is ended:
//! writer.edit(&edit)?;
//! writer.publish(&rt)?;
//! checker.learn(&mut writer.tell());
//! let answer = checker.check(&path, &token, Mask(0x1))?;
//! ```
//!
//! `crates/sd_store_example` is such a client, proved.
#![tactic(auto)]

mod auditing;
mod checker;
mod error;
mod floor;
mod gate;
mod notice;
mod opening;
mod operation;
mod published;
mod publishing;
mod query;
mod read;
mod rule;
mod store_id;
mod worker;
mod writer;

pub use auditing::audit;
pub use checker::Checker;
pub use error::{AuditError, EditError, Gone, PublishError, ShowError};
pub use gate::{Gate, OpenGate};
pub use notice::Notice;
pub use opening::{start, start_within};
pub use query::Query;
pub use store_id::StoreId;
pub use writer::StoreWriter;
