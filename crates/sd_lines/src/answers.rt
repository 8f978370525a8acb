//! How one line is answered.

ghost use Rattle.std.specs.Prelude.{◌≡◌, ◌++◌, ℕ, List, Option, OnOk, option_map};

use std::alloc::{AllocError, Global};

/// What answers the lines of an input, one after the other.
pub trait AnswersLines {
    /// What one line leaves for the next.
    type State;

    /// In the first state the line has this answer, and the second state is left. A line that is too long has no text.
    ghost answers: { Self → Self.State → Option (List ℕ) → List ℕ → Self.State → Type 0 };

    /// Appends the answer to a line to the text.
    fn answer(
        &self,
        alloc: Global,
        state: &mut Self::State,
        line: Option<&[u8]>,
        text: &mut Vec<u8>,
    ) -> Result<(), AllocError>
        ensures { OnOk result ((printed : List ℕ) × (text.new.items ≡ text.old.items ++ printed)
            × answers self.now state.old (option_map (λ bytes. bytes.now) line.entry) printed state.new) };
}
