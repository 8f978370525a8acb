//! What stands between two lines of a script.
ghost use Rattle.std.specs.Prelude.{◌≡◌};
ghost use Rattle.sd_script.specs.Output.{is_open, script_options_of};

use crate::script_options::{Notation, ScriptOptions};
use sd_versions::Desk;

/// What stands between two lines of a script.
#[derive(Drop)]
pub enum Session {
    /// No store is open. One that is opened is opened in this manner.
    Closed(ScriptOptions),
    /// This store is open, and lines are written in this notation.
    Opened(Notation, Desk),
}

impl Session {
    /// Whether a store is open.
    pub(crate) fn is_open(&self) -> bool
        ensures { result ≡ is_open self.now }
    {
        matches!(self, Session::Opened(_, _))
    }

    /// In which manner a store is opened, or is open.
    pub(crate) fn options(&self) -> ScriptOptions
        ensures { result ≡ script_options_of self.now }
    {
        match self {
            Session::Closed(options) => *options,
            Session::Opened(notation, desk) => ScriptOptions {
                mapping: *desk.published().mapping(),
                limits: desk.published().limits(),
                notation: *notation,
            },
        }
    }
}
