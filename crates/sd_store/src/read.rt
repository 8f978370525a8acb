//! A read of the store, by what is published at one moment.

ghost use Rattle.std.specs.Prelude.{◌≡◌, ◌<◌, length, Ok, IsSome, OnOk, OnErr, IfOk, IfErr};
ghost use mathlib.Core.List.{IsPrefix};
ghost use Rattle.std.specs.Option.{option_map_or};
ghost use Rattle.left_right.specs.Sides.{view};
ghost use Rattle.sd_store.specs.Rules.{store_id, newcomer, IsSound, Shows};
ghost use Rattle.sd_store.specs.declared.error.ShowError.TheVariants as show;

use crate::error::{Gone, ShowError};
use crate::floor::Floor;
use crate::rule::{Entered, Seat, Sees};
use crate::store_id::StoreId;
use std::alloc::AllocError;

/// A read begins: its seat is away until it ends. What is published then stays as it is for so long.
pub(crate) fn begin<J: StoreId>(seat: &mut Option<Seat<J>>) -> Result<Entered<J>, Gone>
    requires { IsSome seat.old }
    ensures published { IfOk result (λ entered. Shows (store_id J.opening J.book J.first)
        (option_map_or (λ r. view r.place) seat.old newcomer)
        entered.part.value entered.part.value (view entered.place)) }
    ensures gone { OnErr result (IsSome seat.new
        × (option_map_or (λ r. view r.place) seat.new newcomer
        ≡ option_map_or (λ r. view r.place) seat.old newcomer)) }
{
    let Some(reader) = seat.take() else {
        unreachable!()
    };
    match reader.enter_as::<Sees<J>>() {
        Ok(entered) => Ok(entered),
        Err(reader) => {
            *seat = Some(reader);
            Err(Gone)
        }
    }
}

/// A read ends, with what was found in the published tree: the floor becomes that tree's journal. Not where memory was
/// refused for what was found, nor where the journal is shorter. It never is: a notice has what was published before.
/// But that a read comes after the publish of a notice isn't proved, so the lengths are compared.
pub(crate) fn end<J: StoreId, T: Drop>(
    seat: &mut Option<Seat<J>>,
    floor: &mut Floor<J>,
    entered: Entered<J>,
    found: Result<T, AllocError>,
) -> Result<(u64, T), ShowError>
    requires { IsSound (store_id J.opening J.book J.first) entered.part.value }
    ensures seat { IsSome seat.new
        × (option_map_or (λ r. view r.place) seat.new newcomer ≡ view entered.place) }
    ensures floor { OnOk result (floor.new ≡ entered.part.value.tree.journal) }
    ensures extends { OnOk result (IsPrefix floor.old floor.new) }
    ensures found { IfOk result (λ r. (r.0 ≡ length floor.new) × (found ≡ Ok r.1)) }
    ensures failed { OnErr result (floor.new ≡ floor.old) }
    ensures gone { IfErr result (λ e. e ≡ show.Gone
        → length entered.part.value.tree.journal < length floor.old) }
    ensures memory { IfErr result (λ e. e ≡ show.Memory → OnOk found ⊥) }
{
    let journal = entered.get().floor::<J>();
    *seat = Some(entered.leave());
    let found = found?;
    let len = journal.len();
    floor.raise(journal)?;
    Ok((len, found))
}
