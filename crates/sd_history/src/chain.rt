//! The name of one history.

use std::marker::Brand;

/// The name of one history: its book, and the pen that started it. Each call of a program picks these, in proofs.
pub trait Chain {
    ghost use Rattle.std.specs.Prelude.{ℕ};
    ghost use Rattle.logbook.specs.Pages.{Book};

    ghost book: { Book };

    ghost first: { ℕ };
}

impl Chain for Brand {
    ghost book = { record { number = 0; log_name = 0; cells_name = 0 } };

    ghost first = { 0 };
}
