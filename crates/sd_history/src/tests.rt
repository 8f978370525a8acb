ghost use Rattle.std.specs.Prelude.{◌≡◌, ℕ, [], ◌∷◌};
ghost use Rattle.sd_history.specs.Chains.{items_from, Comparable};

use super::*;
use std::marker::Brand;
use std::mem::{size_of, size_of_val};
use std::process::Abort;
use std::sync::atomic::{AtomicBool, Ordering};
use std::test::*;
use std::thread::{Threads, join, yield_now};

/// The clauses of `written` say what the fronts have seen. A front has no bytes, and a writer those of one word.
#[test]
fn fronts_of_two_edits(rt: HostRuntime) {
    let (empty, one, both) = written::<Brand>(Opened::new(), 5, 7);
    for front in [empty, one, both] {
        assert_eq!(rt; size_of_val(&front), 0);
    }
    assert_eq!(rt; size_of::<HistoryWriter<u64, Brand>>(), size_of::<u64>());
}

#[test]
fn fronts_meet_in_another_thread(rt: HostRuntime) {
    assert!(rt; is_shared::<Brand, _>(&rt, Opened::new()));
}

/// The fronts of a new history, of it with one edit, and of it with both.
fn written<J: Chain>(
    history: Opened<u64>,
    first: u64,
    second: u64,
) -> (Front<u64>, Front<u64>, Front<u64>)
    requires { (history.book ≡ J.book) × (history.first ≡ J.first) }
    ensures empty { items_from J.first result.0.log ≡ [] }
    ensures one { items_from J.first result.1.log ≡ first ∷ [] }
    ensures both { items_from J.first result.2.log ≡ first ∷ second ∷ [] }
    ensures comparable { (k : ℕ) → Comparable (items_from k result.2.log) (items_from k result.1.log) }
{
    let mut writer = history.named::<J>();
    let empty = writer.front();
    writer.write(&first);
    let one = writer.front();
    writer.write(&second);
    let both = writer.front();
    both.meet(&one);
    (empty, one, both)
}

/// One thread writes with the writer; another one waits for that, and then copies a front from before it. Returns
/// whether the wait ended in time.
fn is_shared<J: Chain + Send + Sync, R: Threads + Abort + Sync>(
    rt: &R,
    history: Opened<u64>,
) -> bool
    requires { (history.book ≡ J.book) × (history.first ≡ J.first) }
{
    let mut writer = history.named::<J>();
    writer.write(&1);
    let early = writer.front();
    let written = AtomicBool::new(false);
    let (late, copy) = join(
        rt,
        || -> Front<u64>
            ensures { result.book ≡ J.book }
        {
            writer.write(&2);
            written.store(true, Ordering::SeqCst);
            writer.front()
        },
        || -> (Front<u64>, bool)
            ensures { result.0 ≡ early }
        {
            let is_written = is_set_soon(&written);
            (early.copy(), is_written)
        },
    );
    late.meet(&copy.0);
    copy.1
}

const TURNS: u64 = 1_000_000;

/// Whether the flag is set within `TURNS` turns, each of which lets other threads run.
fn is_set_soon(flag: &AtomicBool) -> bool {
    for _ in 0..TURNS {
        if flag.load(Ordering::SeqCst) {
            return true;
        }
        yield_now();
    }
    false
}
