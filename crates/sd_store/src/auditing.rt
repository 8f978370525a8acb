//! A report over a store that goes on being edited: many queries, dealt among the checkers.

ghost use Rattle.std.specs.Prelude.{◌≡◌, ◌+◌, ◌*◌, ◌^◌, ◌<◌, ◌≤◌, ℕ, None, Some, length, vec_len, slice_index_or};
ghost use Rattle.std.specs.Prelude.{IfOk, IfErr, MatchOption};
ghost use Rattle.sd_store.specs.Audits.{AreAnswers, HaveGrown};
ghost use Rattle.sd_store.specs.Sights.{Sight};
ghost use Rattle.sd_store.specs.Workers.{AreDone, AreInformed, IsDealt, IsDone};
ghost use Rattle.sd_store.specs.declared.error.AuditError.TheVariants as failed;

use crate::checker::Checker;
use crate::error::AuditError;
use crate::gate::Gate;
use crate::notice::Notice;
use crate::query::Query;
use crate::store_id::StoreId;
use crate::worker::work;
use sd_versions::Answer;
use std::alloc::Global;
use std::thread;
use std::thread::Threads;

/// The answers to the queries, in their order, on the condition that there is a checker. Each checker learns the notice
/// first, so no answer is by less than its journal. One worker for each of the `n` checkers, in a thread of its own
/// where one can be made: worker `i` answers the queries `i`, `i + n`, `i + 2n` and so on. After an error each checker
/// has seen no less than it had.
pub fn audit<J: StoreId + Send + Sync, G: Gate + Sync, R: Threads + Sync>(
    rt: &R,
    alloc: Global,
    checkers: &mut [Checker<J>],
    notice: &mut Notice<J>,
    queries: &[Query],
    gate: &G,
) -> Result<Vec<Answer>, AuditError>
    requires some { 0 < length checkers.old }
    ensures notice { notice.new ≡ notice.old }
    ensures grown { HaveGrown J.opening (length queries.now) notice.old.journal checkers.old checkers.new }
    ensures count { IfOk result (λ answers. vec_len answers ≡ length queries.now) }
    ensures answers { IfOk result (λ answers. AreAnswers J.opening queries.now notice.old.journal
        checkers.old checkers.new answers.items) }
    ensures gate { IfErr result (λ e. e ≡ failed.Gate → ¬ G.always) }
{
    inform(checkers, notice);
    spread(rt, alloc, checkers, queries, gate);
    match first_failure(checkers) {
        Some(error) => Err(error),
        None => gathered(alloc, checkers, queries.len()),
    }
}

/// Each checker learns the notice.
fn inform<J: StoreId>(checkers: &mut [Checker<J>], notice: &mut Notice<J>)
    ensures count { length checkers.new ≡ length checkers.old }
    ensures notice { notice.new ≡ notice.old }
    ensures informed { AreInformed notice.old.journal checkers.old checkers.new }
{
    for checker in checkers {
        checker.learn(notice);
    }
}

/// Each checker's worker does its part, as many side by side as there are checkers.
fn spread<J: StoreId + Send + Sync, G: Gate + Sync, R: Threads + Sync>(
    rt: &R,
    alloc: Global,
    checkers: &mut [Checker<J>],
    queries: &[Query],
    gate: &G,
)
    requires some { 0 < length checkers.old }
    ensures count { length checkers.new ≡ length checkers.old }
    ensures done { AreDone J.opening G.always queries.now (length checkers.old) checkers.old checkers.new }
{
    let step = checkers.len();
    thread::for_each_mut(
        rt,
        checkers,
        step,
        &|worker, checker: &mut Checker<J>|
            requires { (worker < step) × (step < 2 ^ 63) }
            ensures { IsDone J.opening G.always queries.entry.now step worker checker.entry.now checker.exit.now }
        { work(alloc, worker, step, queries, gate, checker) },
    );
}

/// Why the first worker that failed has no answers.
fn first_failure<J: StoreId>(checkers: &[Checker<J>]) -> Option<AuditError>
    ensures { MatchOption result
        ((i : ℕ) (d : Sight) → i < length checkers.now → (slice_index_or checkers.now i d).failed ≡ None)
        (λ e. (i : ℕ) × (i < length checkers.now) × ((d : Sight) → (slice_index_or checkers.now i d).failed ≡ Some e)) }
{
    for checker in checkers {
        if let Some(error) = checker.failed() {
            return Some(error);
        }
    }
    None
}

/// The answers to so many queries, in the order of the queries.
fn gathered<J: StoreId>(
    alloc: Global,
    checkers: &[Checker<J>],
    count: usize,
) -> Result<Vec<Answer>, AuditError>
    requires some { 0 < length checkers.now }
    requires enough { (i : ℕ) (d : Sight) → i < length checkers.now
        → count ≤ i + length (slice_index_or checkers.now i d).drawn * length checkers.now }
    ensures count { IfOk result (λ answers. vec_len answers ≡ count) }
    ensures dealt { IfOk result (λ answers. IsDealt checkers.now answers.items) }
    ensures memory { IfErr result (λ e. e ≡ failed.Memory) }
{
    let mut answers = Vec::with_capacity(alloc, count).map_err(|_| AuditError::Memory)?;
    for place in 0..count {
        let worker = place % checkers.len();
        answers.push_reserved(checkers[worker].drawn()[place / checkers.len()]);
    }
    Ok(answers)
}

impl<J: StoreId> Checker<J> {
    fn drawn(&self) -> &[Answer]
        ensures { result.now ≡ self.now.drawn }
    {
        &self.drawn
    }

    fn failed(&self) -> Option<AuditError>
        ensures { result ≡ self.now.failed }
    {
        self.failed
    }
}
