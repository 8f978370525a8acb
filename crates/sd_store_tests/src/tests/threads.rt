//! As many checkers as a store may have, each in its own thread, beside a writer. Each publish changes both nodes that
//! they ask for.

use super::store::{Play, is_right};
use super::*;
use sd_acl::Descriptor;
use sd_store::{Checker, Notice, ShowError, StoreId, StoreWriter};
use sd_versions::Answer;
use std::sync::Wait;
use std::thread;
use std::thread::{JoinHandle, Threads, yield_now};

const CHECKERS: u64 = 64;

const PUBLISHES: u64 = 200;

/// How often a thread asks at most: it ends once it has seen the last publish.
const MOST: u64 = 100_000;

const NODES: [&str; 2] = ["/a", "/b"];

/// A checker, the notice that it learns in its thread, and what it asks: of one node a verdict, of the other the
/// descriptor.
#[derive(Drop)]
struct Asker<J: StoreId> {
    checker: Checker<J>,
    notice: Notice<J>,
    query: Query,
    path: Path,
    /// Whether each answer was by a published journal, no shorter than what was seen before.
    right: bool,
}

impl<J: StoreId> Asker<J> {
    fn new(alloc: Global, checker: Checker<J>, notice: Notice<J>) -> Option<Asker<J>> {
        Some(Asker {
            checker,
            notice,
            query: query(alloc, NODES[0])?,
            path: Path::read(alloc, NODES[1]).ok()?,
            right: true,
        })
    }

    /// Asks once.
    fn ask(&mut self) {
        let is_checked = self.is_checked();
        let is_described = self.is_described();
        self.right = self.right && is_checked && is_described;
    }

    fn is_checked(&mut self) -> bool {
        let before = self.checker.seen();
        let query = &self.query;
        match self.checker.check(&query.path, &query.token, query.asked) {
            Ok(Answer { seen, reply }) => before <= seen && seen % 2 == 0 && reply == due(seen),
            Err(_) => false,
        }
    }

    fn is_described(&mut self) -> bool {
        let before = self.checker.seen();
        match self.checker.descriptor(&self.path) {
            Ok((seen, found)) => before <= seen && seen % 2 == 0 && is_of(seen, &found),
            Err(ShowError::Memory) => true,
            Err(ShowError::Gone) => false,
        }
    }

    fn done(self) -> Asker<J> {
        let mut asker = self;
        asker.checker.learn(&mut asker.notice);
        for _ in 0..MOST {
            asker.ask();
            if !asker.right || asker.checker.seen() == 2 * PUBLISHES {
                break;
            }
            yield_now();
        }
        asker
    }
}

/// The reply by the journal of that length.
fn due(seen: u64) -> CheckReply {
    match (seen, mask(seen)) {
        (0, _) => CheckReply::NoNode,
        (_, Mask(0x1)) => GRANTED,
        _ => DENIED,
    }
}

/// What both nodes' one entry grants after so many edits.
fn mask(seen: u64) -> Mask {
    Mask(if seen % 4 == 2 { 0x1 } else { 0x2 })
}

/// Whether that is a node's descriptor after so many edits.
fn is_of(seen: u64, found: &Option<Descriptor>) -> bool {
    match found {
        None => seen == 0,
        Some(descriptor) => match &descriptor.dacl {
            Dacl::List(list) => match list.entries() {
                [entry] => entry.mask == mask(seen),
                _ => false,
            },
            _ => false,
        },
    }
}

/// The checkers ask in threads while the writer publishes, and once more when it has.
pub(super) fn are_right_beside<J: StoreId + Send + Sync + 'static, R: Threads + Wait>(
    rt: &R,
    alloc: Global,
    writer: &mut StoreWriter<J>,
    checkers: &mut Vec<Checker<J>>,
) -> Option<bool> {
    let threads = all_away(rt, alloc, writer, checkers)?;
    let mut right = true;
    for publish in 1..=PUBLISHES {
        right &= published(rt, alloc, writer, publish)? == 2 * publish;
    }
    for thread in threads {
        right &= is_back(writer, thread.join(rt));
    }
    Some(right)
}

fn all_away<J: StoreId + Send + Sync + 'static, R: Threads>(
    rt: &R,
    alloc: Global,
    writer: &mut StoreWriter<J>,
    checkers: &mut Vec<Checker<J>>,
) -> Option<Vec<JoinHandle<Asker<J>>>> {
    let mut threads = Vec::with_capacity(alloc, CHECKERS as usize).ok()?;
    for _ in 0..CHECKERS {
        let asker = Asker::new(alloc, checkers.pop()?, writer.tell())?;
        threads.push(away(rt, asker)?).ok()?;
    }
    Some(threads)
}

fn away<J: StoreId + Send + Sync + 'static, R: Threads>(
    rt: &R,
    asker: Asker<J>,
) -> Option<JoinHandle<Asker<J>>> {
    thread::spawn(rt, move || asker.done()).ok()
}

/// Both nodes are changed, and one publish shows it: how long the journal then is.
fn published<J: StoreId, R: Wait>(
    rt: &R,
    alloc: Global,
    writer: &mut StoreWriter<J>,
    publish: u64,
) -> Option<u64> {
    let (change, sddl) = change_by(publish);
    for node in NODES {
        edited(writer, &edit(alloc, change, node, sddl)?)?;
    }
    writer.publish(rt).ok()
}

/// What the publish of that number, from 1, makes of each node.
fn change_by(publish: u64) -> (Change, &'static str) {
    match (publish, publish % 2) {
        (1, _) => (Change::Object, "O:BAG:SYD:(A;;0x1;;;BU)"),
        (_, 1) => (Change::Dacl, "O:BAG:SYD:(A;;0x1;;;BU)"),
        _ => (Change::Dacl, "O:BAG:SYD:(A;;0x2;;;BU)"),
    }
}

fn edited<J: StoreId>(writer: &mut StoreWriter<J>, edit: &Edit) -> Option<()> {
    writer.edit(edit).ok()
}

/// Whether the checker's answers in its thread were right, and those after it learned the last publish.
fn is_back<J: StoreId>(writer: &mut StoreWriter<J>, asker: Asker<J>) -> bool {
    let mut asker = asker;
    asker.checker.learn(&mut writer.tell());
    let has_learned = asker.checker.seen() == 2 * PUBLISHES;
    asker.ask();
    asker.right && has_learned && asker.checker.seen() == 2 * PUBLISHES
}

#[test]
fn sixty_four_checkers_beside_a_writer(rt: HostRuntime) {
    assert_eq!(rt;
        is_right(&rt, rt.alloc(), CHECKERS, &Play::Threads),
        Some(true)
    );
}
