//! A command's own options, which stand between it and its arguments.
ghost use Rattle.std.specs.Prelude.{◌≡◌};
ghost use Rattle.sd_arguments.specs.Flags.{flags_in, is_given, with_flag};

use sd_usage::{Command, Flag};

/// Which of its own options a command is given.
#[derive(Clone, Copy)]
pub struct GivenFlags {
    pub ids: bool,
    pub zero: bool,
    pub key: bool,
    pub pairs: bool,
}

/// No option of the command's own is given.
pub(crate) const NO_FLAGS: GivenFlags = GivenFlags {
    ids: false,
    zero: false,
    key: false,
    pairs: false,
};

impl GivenFlags {
    fn has(self, flag: Flag) -> bool
        ensures { result ≡ is_given self flag }
    {
        match flag {
            Flag::Ids => self.ids,
            Flag::Zero => self.zero,
            Flag::Key => self.key,
            Flag::Pairs => self.pairs,
        }
    }

    /// The given options, and one more.
    fn with_flag(self, flag: Flag) -> GivenFlags
        ensures { result ≡ with_flag self flag }
    {
        match flag {
            Flag::Ids => GivenFlags { ids: true, ..self },
            Flag::Zero => GivenFlags { zero: true, ..self },
            Flag::Key => GivenFlags { key: true, ..self },
            Flag::Pairs => GivenFlags {
                pairs: true,
                ..self
            },
        }
    }
}

/// The command's own options that the arguments begin with, each once, beside those that are given, and the arguments
/// after them.
pub(crate) fn flags_in<'a>(
    command: Command,
    given: GivenFlags,
    words: &'a [&'a str],
) -> (GivenFlags, &'a [&'a str])
    ensures { (result.0, result.1.now) ≡ flags_in command given words.entry.now }
{
    let [word, after @ ..] = words else {
        return (given, words);
    };
    match command.flag_named(word) {
        Some(flag) if !given.has(flag) => flags_in(command, given.with_flag(flag), after),
        _ => (given, words),
    }
}
