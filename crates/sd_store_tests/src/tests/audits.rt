//! An audit through a gate.

use super::store::{Play, is_right};
use super::*;
use sd_store::{AuditError, Checker, Gate, Notice, StoreId, StoreWriter, audit};
use sd_versions::Answer;
use std::sync::Wait;
use std::sync::atomic::{AtomicBool, Ordering};
use std::thread::{Threads, join, yield_now};

/// A gate that is closed, or lets two workers and a writer take turns. The second worker checks once the first is
/// there. The writer publishes an edit once the second has checked. Then the first checks. So workers in one thread,
/// in whatever order, find the gate closed.
#[derive(Drop)]
pub(super) struct Turns {
    is_closed: bool,
    first_came: AtomicBool,
    second_asked: AtomicBool,
    published: AtomicBool,
}

impl Turns {
    fn new(is_closed: bool) -> Turns {
        Turns {
            is_closed,
            first_came: AtomicBool::new(false),
            second_asked: AtomicBool::new(false),
            published: AtomicBool::new(false),
        }
    }
}

impl Gate for Turns {
    fn before(&self, worker: u64, _k: u64) -> bool {
        if self.is_closed {
            return false;
        }
        if worker == 0 {
            self.first_came.store(true, Ordering::SeqCst);
            is_set_soon(&self.published)
        } else {
            is_set_soon(&self.first_came)
        }
    }

    fn after(&self, worker: u64, _k: u64) {
        if worker == 1 {
            self.second_asked.store(true, Ordering::SeqCst);
        }
    }
}

/// More turns than any thread waits for another one.
const TURNS: u64 = 10_000_000;

/// Whether the flag is set within so many turns, each of which lets other threads go first.
fn is_set_soon(flag: &AtomicBool) -> bool {
    for _ in 0..TURNS {
        if flag.load(Ordering::SeqCst) {
            return true;
        }
        yield_now();
    }
    false
}

/// The first worker's answer, by the edit that is published meanwhile, and the second one's, by the edit before.
const WANTED: [Answer; 2] = [
    Answer {
        seen: 2,
        reply: DENIED,
    },
    Answer {
        seen: 1,
        reply: GRANTED,
    },
];

/// Whether an audit by two checkers is answered as its gate has it, beside a writer.
pub(super) fn audited_beside<J: StoreId + Send + Sync, R: Threads + Wait + Sync>(
    rt: &R,
    alloc: Global,
    writer: &mut StoreWriter<J>,
    checkers: &mut [Checker<J>],
    turns: &Turns,
) -> Option<bool> {
    let edits = both_edits(alloc)?;
    let queries = both_queries(alloc)?;
    let begins = published(rt, writer, &edits.0);
    let mut notice = writer.tell();
    let (is_published, answers) = join(
        rt,
        || goes_on(rt, writer, &edits.1, turns),
        || asked(rt, alloc, checkers, &mut notice, &queries, turns),
    );
    Some(begins && are_wanted(turns, is_published, &answers))
}

/// The edit that is published before the audit, and the one meanwhile.
fn both_edits(alloc: Global) -> Option<(Edit, Edit)> {
    let first = edit(alloc, Change::Object, "/a", "O:BAG:SYD:(A;;0x1;;;BU)")?;
    let next = edit(alloc, Change::Dacl, "/a", "O:BAG:SYD:(A;;0x2;;;BU)")?;
    Some((first, next))
}

/// What the two workers ask.
fn both_queries(alloc: Global) -> Option<Vec<Query>> {
    vec![in alloc; query(alloc, "/a")?, query(alloc, "/a")?].ok()
}

/// Whether the audit ended as the gate has it.
fn are_wanted(
    turns: &Turns,
    is_published: bool,
    answers: &Result<Vec<Answer>, AuditError>,
) -> bool {
    match answers {
        Ok(answers) => is_published && !turns.is_closed && answers.as_slice() == WANTED.as_slice(),
        Err(error) => *error == AuditError::Gate && turns.is_closed,
    }
}

fn published<J: StoreId, R: Wait>(rt: &R, writer: &mut StoreWriter<J>, edit: &Edit) -> bool {
    writer.edit(edit).is_ok() && writer.publish(rt).is_ok()
}

/// What the writer does once the second worker's answer is there.
fn goes_on<J: StoreId, R: Wait>(
    rt: &R,
    writer: &mut StoreWriter<J>,
    next: &Edit,
    turns: &Turns,
) -> bool {
    let done = !turns.is_closed && is_set_soon(&turns.second_asked) && published(rt, writer, next);
    turns.published.store(true, Ordering::SeqCst);
    done
}

/// An audit by the checkers, which there are 1 to 64 of.
fn asked<J: StoreId + Send + Sync, R: Threads + Sync>(
    rt: &R,
    alloc: Global,
    checkers: &mut [Checker<J>],
    notice: &mut Notice<J>,
    queries: &[Query],
    gate: &Turns,
) -> Result<Vec<Answer>, AuditError> {
    if checkers.is_empty() || checkers.len() > 64 {
        return Err(AuditError::Gone);
    }
    audit(rt, alloc, checkers, notice, queries, gate)
}

#[test]
fn audit_while_editing(rt: HostRuntime) {
    for is_closed in [false, true] {
        let turns = Turns::new(is_closed);
        let right = is_right(&rt, rt.alloc(), 2, &Play::Audit(&turns));
        assert_eq!(rt; right, Some(true), "closed: {is_closed}");
    }
}
