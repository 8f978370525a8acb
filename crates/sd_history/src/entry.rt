//! An entry of the log.

use std::collections::LinkedList;

/// An entry of the log: what one step appended, the cell of the pen that wrote it (`own`), and that of the pen that may
/// write after it (`next`). The log exists in the proofs alone, so no value of this type is ever made.
pub struct Entry<T> {
    pub what: LinkedList<T>,
    pub own: u64,
    pub next: u64,
}
