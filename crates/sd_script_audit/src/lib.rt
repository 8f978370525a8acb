//! Audits: a script whose checks are answered at the end, by all that was published, dealt among workers.
//!
//! Lines are read and answered as those of a script are. A check is kept; after the last line the edits that wait are
//! published, and each check is answered by them. `run_audit` takes a whole script from a reader, writes the whole
//! output and returns what is counted of its lines, which is what `PrintsAuditAndCounts` in specs/Audit.antt says.
//! docs/SCRIPT.md says the same in prose.
//!
//! ```text
//! let mut reader = Watched::new(b"open 1 O:BAG:SYD:\ncheck 0 / S-1-5-18 0x1\n".as_slice());
//! let mut writer = Watched::new(Vec::new(alloc));
//! let notation = Notation::plain(PathSpelling::Plain);
//! let options = ScriptOptions { mapping: GenericMapping::file(), limits: Limits::standard(), notation };
//! let counts = run_audit(&rt, alloc, 4, &options, &mut reader, &mut writer, &OpenGate)?;
//! // the writer holds "opened 4\ntold 0\nseen 0 denied 0x1\n", and counts.first_fault is None
//! ```
#![tactic(auto)]

mod answers;
mod laws;
mod line;
mod opening;
mod output;
mod queries;
mod streams;

pub use laws::workers_show_in_the_opening;
pub use streams::run_audit;
