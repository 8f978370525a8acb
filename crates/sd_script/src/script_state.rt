//! A script, as far as it is carried out.
ghost use Rattle.std.specs.Prelude.{◌≡◌};
ghost use Rattle.sd_script.specs.Output.{before_first_line};

use crate::expect::LastAnswer;
use crate::script_counts::ScriptCounts;
use crate::script_options::ScriptOptions;
use crate::session::Session;

/// A script, as far as it is carried out.
#[derive(Drop)]
pub struct ScriptState {
    /// What stands between two of its lines.
    pub session: Session,
    /// The last answer, which a line may expect.
    pub last: LastAnswer,
    /// What is counted of the lines before.
    pub counts: ScriptCounts,
}

impl ScriptState {
    /// Before the first line: no store is open.
    pub fn before_first_line(options: &ScriptOptions) -> ScriptState
        ensures { result ≡ before_first_line options.now }
    {
        ScriptState {
            session: Session::Closed(*options),
            last: LastAnswer::none(),
            counts: ScriptCounts::of_no_lines(),
        }
    }
}
