//! Which store a writer and its checkers are of.

use sd_history::Chain;
use std::marker::Brand;

/// Which store it is: the opening that its tree begins with, and the history of its edits. A type, so no call can
/// change it, and a checker of one store has another type than one of a second store. Each program picks it where it
/// starts a store; it has no value and no method.
pub trait StoreId: Chain {
    ghost use Rattle.sd_edit.specs.declared.opening.Opening.{Opening};

    ghost opening: { Opening };
}

/// Any value: a caller picks the one that it has.
impl StoreId for Brand {
    ghost use Rattle.std.specs.Prelude.{[]};
    ghost use Rattle.sd_edit.specs.Limits.{standard_limits};
    ghost use Rattle.sd_edit.specs.declared.node.NodeDacl.TheVariants.{Null};

    ghost opening = { record {
      mapping = record { read = 0; write = 0; execute = 0; all = 0 };
      root = record {
        owner = record { authority = 0; subs = [] };
        group = record { authority = 0; subs = [] };
        dacl = Null;
      };
      limits = standard_limits;
    } };
}
