//! The commands of a script, with their words as they stand.
ghost use Rattle.std.specs.Prelude.{◌≡◌, option_map};
ghost use Rattle.std.specs.List.{list_any};
ghost use Rattle.sd_script.specs.Command.{command_named, command_of, command_value, is_empty, is_untimely};
ghost use Rattle.sd_answer.specs.Word.{texts};

/// A command's name.
#[derive(Clone, Copy)]
pub(crate) enum ScriptCommand {
    Open,
    AddContainer,
    AddObject,
    SetOwner,
    SetGroup,
    SetDacl,
    Remove,
    Protect,
    Move,
    Publish,
    Tell,
    Learn,
    Check,
    Why,
    Find,
    Show,
    ListNodes,
    Dump,
    Who,
    ExpectOnly,
    Review,
    ImportNode,
    Delete,
}

/// A command with its arguments.
#[derive(Clone, Copy)]
pub(crate) struct CommandWithArguments<'a> {
    pub(crate) name: ScriptCommand,
    pub(crate) arguments: &'a [&'a str],
}

impl ScriptCommand {
    fn named(word: &str) -> Option<ScriptCommand>
        ensures { result ≡ command_named word.now }
    {
        match word {
            "open" => Some(ScriptCommand::Open),
            "addc" => Some(ScriptCommand::AddContainer),
            "addo" => Some(ScriptCommand::AddObject),
            "owner" => Some(ScriptCommand::SetOwner),
            "group" => Some(ScriptCommand::SetGroup),
            "dacl" => Some(ScriptCommand::SetDacl),
            "remove" => Some(ScriptCommand::Remove),
            "protect" => Some(ScriptCommand::Protect),
            "move" => Some(ScriptCommand::Move),
            "publish" => Some(ScriptCommand::Publish),
            "tell" => Some(ScriptCommand::Tell),
            "learn" => Some(ScriptCommand::Learn),
            "check" => Some(ScriptCommand::Check),
            "why" => Some(ScriptCommand::Why),
            "find" => Some(ScriptCommand::Find),
            "show" => Some(ScriptCommand::Show),
            "list" => Some(ScriptCommand::ListNodes),
            "dump" => Some(ScriptCommand::Dump),
            "who" => Some(ScriptCommand::Who),
            "expect-only" => Some(ScriptCommand::ExpectOnly),
            "review" => Some(ScriptCommand::Review),
            "import" => Some(ScriptCommand::ImportNode),
            "delete" => Some(ScriptCommand::Delete),
            _ => None,
        }
    }

    /// Whether a store is open and the command would open one, or none is and it requires one.
    pub(crate) fn is_untimely(self, is_open: bool) -> bool
        ensures { result ≡ is_untimely is_open self }
    {
        match self {
            ScriptCommand::Open => is_open,
            _ => !is_open,
        }
    }
}

/// The command that the words are, none of which is empty.
pub(crate) fn command_of<'a>(words: &'a [&'a str]) -> Option<CommandWithArguments<'a>>
    ensures { option_map command_value result ≡ command_of (texts words.entry.now) }
{
    if has_empty(words) {
        return None;
    }
    let (word, arguments) = words.split_first()?;
    let name = ScriptCommand::named(word)?;
    Some(CommandWithArguments { name, arguments })
}

fn has_empty(words: &[&str]) -> bool
    ensures { result ≡ list_any is_empty (texts words.now) }
{
    words.iter().any(|word| word.is_empty())
}
