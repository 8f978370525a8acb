//! Audits through a gate.

use super::plain;
use sd_lines::{RunError, Watched};
use sd_script::ScriptCounts;
use sd_script_audit::run_audit;
use sd_store::Gate;
use std::alloc::AllocGlobal;
use std::sync::Wait;
use std::sync::atomic::{AtomicU64, Ordering};
use std::test::Fail;
use std::thread::Threads;

/// An audit of two checks.
const AUDIT: &str = "\
open 1 O:BAG:SYD:
addo /a O:BAG:SYD:(A;;FR;;;BU)
check 0 /a S-1-5-21-1-2-3-1001 FR BU
check 0 /b S-1-5-21-1-2-3-1001 0x1
";

/// What an audit answers, and what it writes.
fn audited<T: Threads + Wait + Sync + AllocGlobal, G: Gate + Sync>(
    rt: &T,
    workers: u64,
    script: &str,
    gate: &G,
) -> (Result<ScriptCounts, RunError>, Vec<u8>) {
    let alloc = rt.alloc();
    let mut reader = Watched::new(script.as_bytes());
    let mut writer = Watched::new(Vec::new(alloc));
    let ended = run_audit(rt, alloc, workers, &plain(), &mut reader, &mut writer, gate);
    (ended, writer.into_inner())
}

/// A gate that lets no check through.
struct Closed;

impl Gate for Closed {
    fn before(&self, _worker: u64, _k: u64) -> bool {
        false
    }

    fn after(&self, _worker: u64, _k: u64) {}
}

#[test]
fn tells_of_a_closed_gate(rt: HostRuntime) {
    let (ended, printed) = audited(&rt, 2, AUDIT, &Closed);
    assert_eq!(rt; ended.err(), Some(RunError::Thread));
    assert!(rt; printed.is_empty());
}

/// A gate that lets each check through, and has a bit set for each worker that came.
#[derive(Drop)]
struct Recording {
    came: AtomicU64,
}

impl Gate for Recording {
    fn before(&self, worker: u64, _k: u64) -> bool {
        if worker < 64 {
            self.came.fetch_or(1 << worker, Ordering::SeqCst);
        }
        true
    }

    fn after(&self, _worker: u64, _k: u64) {}
}

#[test]
fn each_worker_comes(rt: HostRuntime) -> Result<(), Fail> {
    let check = "check 0 / S-1-5-18 0x1\n";
    for (workers, bits) in [(2, 0x3), (64, u64::MAX)] {
        let mut script = String::from_str(rt.alloc(), "open 1 O:BAG:SYD:\n")?;
        for _ in 0..64 {
            script.push_str(check)?;
        }
        let gate = Recording {
            came: AtomicU64::new(0),
        };
        let (ended, _) = audited(&rt, workers, script.as_str(), &gate);
        assert!(rt; ended.is_ok());
        assert_eq!(rt; gate.came.load(Ordering::SeqCst), bits, "{workers}");
    }
    Ok(())
}
