//! What stands at each check of an audit.

ghost use Rattle.std.specs.Prelude.{IsTrue};

/// What an audit calls round each worker's k-th check, from 0 on: to hold workers back, to stop the audit, to count.
pub trait Gate {
    // What shows that `before` never answers false, if anything does.
    ghost always: { Type 0 } = { ⊥ };

    /// Whether the worker may go on. Where it may not, the audit answers `AuditError::Gate`.
    fn before(&self, worker: u64, k: u64) -> bool
        ensures { always → IsTrue result };

    /// Called after the worker's k-th check was made.
    fn after(&self, worker: u64, k: u64);
}

/// A gate that lets each check through.
#[derive(Clone, Copy, Debug, Default)]
pub struct OpenGate;

impl Gate for OpenGate {
    ghost always = { Unit {0} };

    fn before(&self, _worker: u64, _k: u64) -> bool {
        true
    }

    fn after(&self, _worker: u64, _k: u64) {}
}
