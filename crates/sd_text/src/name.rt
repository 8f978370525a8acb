//! Names of a table in a text. A row of a table is a name and its meaning.

ghost use Rattle.std.specs.Prelude.{◌≡◌, IfNone, IfSome, Some, None, Ok, fold, true};
ghost use Rattle.sd_text.specs.Grammar.{named};
ghost use Rattle.sd_text.specs.Rights.{bits_of};
ghost use Rattle.sd_text.specs.Names.{rows};
ghost use Rattle.sd_text.specs.Places.{are_placed};
ghost use Rattle.sd_text.specs.Finding.{find};

use crate::cursor::Cursor;
use crate::places::{Places, slot};

impl Cursor<'_> {
    /// Consumes the first name of the table that is here, and returns its meaning.
    pub fn name<T: Copy>(&mut self, names: &[(&str, T)]) -> Option<T>
        ensures none { IfNone result
            ((named (rows names.now) self.old.rest.now ≡ None) × (self.new.rest.now ≡ self.old.rest.now)) }
        ensures some { IfSome result (λ x. named (rows names.now) self.old.rest.now ≡ Some (x, self.new.rest.now)) }
    {
        for (letters, meaning) in names {
            if self.eat(letters.as_bytes()) {
                return Some(*meaning);
            }
        }
        None
    }

    /// Consumes the name of two letters that is here, if the table has it, and returns its meaning. Only the one name
    /// that can be here is compared.
    pub(crate) fn name_of_two<T: Copy>(&mut self, names: &[(&str, T)], places: &Places) -> Option<T>
        requires { are_placed places.now 0 (rows names.now) ≡ true }
        ensures none { IfNone result
            ((named (rows names.now) self.old.rest.now ≡ None) × (self.new.rest.now ≡ self.old.rest.now)) }
        ensures some { IfSome result (λ x. named (rows names.now) self.old.rest.now ≡ Some (x, self.new.rest.now)) }
    {
        if self.rest.len() < 2 {
            return None;
        }
        let place = usize::from(places[slot(self.rest[0], self.rest[1])]);
        if place >= names.len() {
            return None;
        }
        let (letters, meaning) = &names[place];
        if self.eat(letters.as_bytes()) {
            Some(*meaning)
        } else {
            None
        }
    }

    /// A run of names of two letters, perhaps empty. Returns the union of their bits.
    pub(crate) fn bits_of(&mut self, names: &[(&str, u32)], places: &Places) -> u32
        requires { are_placed places.now 0 (rows names.now) ≡ true }
        ensures { find (bits_of (rows names.now)) self.old.rest.now ≡ Ok (result, self.new.rest.now) }
    {
        let mut bits = 0;
        'names: loop {
            match self.name_of_two(names, places) {
                Some(more) => bits |= more,
                None => return bits,
            }
        }
    }
}
