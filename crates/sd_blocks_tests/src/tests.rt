//! Lists in shared blocks beside vectors on which the same is done.

ghost use Rattle.std.specs.Prelude.{◌≡◌, ◌<◌, ◌≤◌, length};

use sd_blocks::{Blocks, Sought, snapshot_stays};
use std::alloc::{AllocError, Global};
use std::cmp::Ordering;
use std::test::*;

/// More elements than a hundred blocks have.
const MANY: u64 = 20_000;

/// More elements than the blocks of two levels have.
const A_MILLION: u64 = 1_100_000;

/// A number that is sought among others.
#[derive(Drop)]
struct Number(u64);

impl Sought<u64> for Number {
    ghost use Rattle.std.specs.Ordering.{nat_cmp};

    ghost ord = { λ number item. nat_cmp item number.0 };

    fn compare(&self, item: &u64) -> Ordering {
        item.cmp(&self.0)
    }
}

/// The next of some numbers that look random.
fn next(x: u64) -> u64 {
    x.wrapping_mul(6_364_136_223_846_793_005)
        .wrapping_add(1_442_695_040_888_963_407)
}

/// A position in a list of so many elements, or at its end.
fn position(x: u64, len: usize) -> usize
    requires { len < usize.MAX }
    ensures { result ≤ len }
{
    (x >> 33) as usize % (len + 1)
}

/// Inserts an element into both, where the position is in both.
fn insert(
    alloc: Global,
    list: &mut Blocks<u64>,
    items: &mut Vec<u64>,
    at: usize,
    item: u64,
) -> Result<(), AllocError> {
    if at <= list.len() && at <= items.len() {
        list.insert(alloc, at, item)?;
        items.insert(at, item)?;
    }
    Ok(())
}

/// Removes an element of both, where the position is in both. Whether it is the same.
fn remove(
    alloc: Global,
    list: &mut Blocks<u64>,
    items: &mut Vec<u64>,
    at: usize,
) -> Result<bool, AllocError> {
    if at >= list.len() || at >= items.len() {
        return Ok(list.len() == items.len());
    }
    Ok(list.remove(alloc, at)? == items.remove(at))
}

/// Whether the list has just these elements, by each way to read it.
fn is_same(list: &Blocks<u64>, items: &[u64]) -> bool {
    if list.len() != items.len() || list.get(items.len()).is_some() {
        return false;
    }
    for at in 0..list.len() {
        if list.get(at) != items.get(at) || list.run_from(at).first() != items.get(at) {
            return false;
        }
    }
    true
}

/// A list and a vector of the even numbers below twice this one.
fn evens(alloc: Global, count: u64) -> Result<(Blocks<u64>, Vec<u64>), AllocError> {
    let mut list = Blocks::new(alloc);
    let mut items = Vec::new(alloc);
    for number in 0..count {
        let at = items.len();
        insert(alloc, &mut list, &mut items, at, number.wrapping_mul(2))?;
    }
    Ok((list, items))
}

/// Insertions and removals at random positions, many more of the first, then of the second.
fn changed(alloc: Global) -> Result<bool, AllocError> {
    let mut list = Blocks::new(alloc);
    let mut items = Vec::new(alloc);
    let mut x = 1;
    for number in 0..MANY {
        x = next(x);
        let at = if items.len() < usize::MAX {
            position(x, items.len())
        } else {
            0
        };
        let removes = if number < MANY / 2 {
            x % 4 == 0
        } else {
            x % 4 != 0
        };
        if removes {
            if !remove(alloc, &mut list, &mut items, at)? {
                return Ok(false);
            }
        } else {
            insert(alloc, &mut list, &mut items, at, number)?;
        }
    }
    Ok(is_same(&list, &items))
}

#[test]
fn a_list_has_what_a_vector_has(rt: HostRuntime) {
    assert!(rt; changed(rt.alloc()).expect(&rt, "memory"));
}

/// Whether a snapshot stays while its list is written, gets elements and loses some, and the list has the changes.
fn stays(alloc: Global) -> Result<bool, AllocError> {
    let (mut list, mut items) = evens(alloc, MANY)?;
    let snapshot = list.copy(alloc)?;
    let (_, before) = evens(alloc, MANY)?;
    for at in 0..items.len() {
        if at % 100 == 0 && at < list.len() {
            list.set(alloc, at, 1)?;
            items[at] = 1;
        }
    }
    insert(alloc, &mut list, &mut items, 7, 3)?;
    let same = remove(alloc, &mut list, &mut items, 9_999)?;
    Ok(same && is_same(&list, &items) && is_same(&snapshot, &before))
}

#[test]
fn a_snapshot_stays(rt: HostRuntime) {
    assert!(rt; stays(rt.alloc()).expect(&rt, "memory"));
}

/// A snapshot from before an insertion, where the position is in the list.
fn snapshot(alloc: Global, list: &mut Blocks<u64>, at: usize, item: u64) -> Option<Blocks<u64>> {
    if at > list.len() {
        return None;
    }
    snapshot_stays(alloc, list, at, item).ok()
}

#[test]
fn a_snapshot_is_from_before_an_insertion(rt: HostRuntime) {
    let alloc = rt.alloc();
    let mut list = list_of(alloc, &[1, 2, 3]).expect(&rt, "memory");
    let before = snapshot(alloc, &mut list, 1, 9).expect(&rt, "memory");
    assert!(rt; is_same(&before, &[1, 2, 3]) && is_same(&list, &[1, 9, 2, 3]));
}

/// Whether each even number below twice the count is found at its position, and each odd one would be inserted behind.
fn all_found(alloc: Global, count: u64) -> Result<bool, AllocError> {
    let (list, items) = evens(alloc, count)?;
    for at in 0..items.len() {
        let even = items[at];
        let odd = even.wrapping_add(1);
        if list.search(&Number(even)) != Ok(at) || list.search(&Number(odd)) != Err(at + 1) {
            return Ok(false);
        }
    }
    Ok(true)
}

#[test]
fn each_element_is_found(rt: HostRuntime) {
    for count in [0, 1, 127, 128, 129, MANY, A_MILLION] {
        assert!(rt;
            all_found(rt.alloc(), count).expect(&rt, "memory"),
            "of {count}"
        );
    }
}

/// A list of the numbers.
fn list_of(alloc: Global, numbers: &[u64]) -> Result<Blocks<u64>, AllocError> {
    let mut list = Blocks::new(alloc);
    let mut items = Vec::new(alloc);
    for number in numbers {
        let at = items.len();
        insert(alloc, &mut list, &mut items, at, *number)?;
    }
    Ok(list)
}

/// Inserts a run. Whether the position is in the list.
fn insert_run(alloc: Global, list: &mut Blocks<u64>, at: usize, run: Vec<u64>) -> bool {
    if at > list.len() {
        return false;
    }
    list.insert_run(alloc, at, run).is_ok()
}

/// Exchanges a run for as many elements. Whether the list has both places.
fn exchange_run(
    alloc: Global,
    list: &mut Blocks<u64>,
    from: usize,
    to: usize,
    run: Vec<u64>,
) -> bool {
    let Some(last) = list.len().checked_sub(run.len()) else {
        return false;
    };
    if from > last || to > last {
        return false;
    }
    list.exchange_run(alloc, from, to, run).is_ok()
}

#[test]
fn runs_are_exchanged_and_inserted(rt: HostRuntime) {
    let alloc = rt.alloc();
    let mut list = list_of(alloc, &[0, 1, 2, 3, 4, 5, 6, 7]).expect(&rt, "memory");
    let run = vec![in alloc; 10, 11, 12].expect(&rt, "memory");
    assert!(rt; exchange_run(alloc, &mut list, 1, 4, run));
    assert!(rt; is_same(&list, &[0, 4, 5, 6, 10, 11, 12, 7]));
    let run = vec![in alloc; 8, 9].expect(&rt, "memory");
    assert!(rt; exchange_run(alloc, &mut list, 2, 2, run));
    assert!(rt; is_same(&list, &[0, 4, 8, 9, 10, 11, 12, 7]));
    let run = vec![in alloc; 13].expect(&rt, "memory");
    assert!(rt; exchange_run(alloc, &mut list, 7, 0, run));
    assert!(rt; is_same(&list, &[13, 0, 4, 8, 9, 10, 11, 12]));
    let run = vec![in alloc; 14, 15].expect(&rt, "memory");
    assert!(rt; insert_run(alloc, &mut list, 8, run));
    assert!(rt; is_same(&list, &[13, 0, 4, 8, 9, 10, 11, 12, 14, 15]));
}

/// An element of both gives way to another, where both positions are in both. Whether they were.
fn exchange(
    alloc: Global,
    list: &mut Blocks<u64>,
    items: &mut Vec<u64>,
    from: usize,
    to: usize,
    item: u64,
) -> Result<bool, AllocError> {
    if from >= items.len() || to >= items.len() {
        return Ok(false);
    }
    let _gone = items.remove(from);
    items.insert(to, item)?;
    Ok(exchange_run(alloc, list, from, to, vec![in alloc; item]?))
}

/// Whether elements go from random positions to others as in a vector, within a block and from one to another, while a
/// snapshot stays.
fn moved(alloc: Global) -> Result<bool, AllocError> {
    let (mut list, mut items) = evens(alloc, MANY)?;
    let snapshot = list.copy(alloc)?;
    let (_, before) = evens(alloc, MANY)?;
    let mut x = 1;
    for number in 0..MANY {
        x = next(x);
        let from = position(x, 19_990);
        let to = if number % 2 == 0 {
            from.saturating_add(7)
        } else {
            position(next(x), 19_990)
        };
        if !exchange(alloc, &mut list, &mut items, from, to, number)? {
            return Ok(false);
        }
    }
    Ok(is_same(&list, &items) && is_same(&snapshot, &before))
}

#[test]
fn elements_move_as_in_a_vector(rt: HostRuntime) {
    assert!(rt; moved(rt.alloc()).expect(&rt, "memory"));
}

/// A list may be read by several threads, and dropped by any.
#[test]
fn lists_cross_threads(rt: HostRuntime) {
    may_cross(&list_of(rt.alloc(), &[1]).expect(&rt, "memory"));
}

/// Compiled only for what threads may share.
fn may_cross<T: Send + Sync>(_: &T) {}
