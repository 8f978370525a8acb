//! The arguments of a command.
ghost use Rattle.std.specs.Prelude.{◌≡◌, ◌≤◌, drop, length};
ghost use Rattle.sd_commands.specs.CommandAnswer.{argument};

/// The argument at the place, empty where there is none.
pub(crate) fn argument<'a>(arguments: &'a [&'a str], place: usize) -> &'a str
    ensures { result.now ≡ argument arguments.entry.now place }
{
    arguments.get(place).copied().unwrap_or("")
}

/// The items from the place on.
#[tactic(auto, using(std::proofs::lemmas::List::drop_min))]
pub(crate) fn items_from<T>(items: &[T], place: usize) -> &[T]
    ensures rest { result.now ≡ drop place items.now }
    ensures within { length result.now ≤ length items.now }
{
    &items[place.min(items.len())..]
}
