//! Laws about accounts.

ghost use Rattle.sd_accounts.specs.Laws.{BelongsByAWay, OrderDoesNotMatter, RowsHaveNoFault};

/// A law: lines that are rows have no fault, so `read` returns the rows of exactly the texts without one.
pub fn rows_have_no_fault()
    ensures { RowsHaveNoFault }
{}

/// A law: the groups to which one belongs don't depend on the order of the rows, and further rows take none away
/// ([MS-DTYP] 2.4.2).
pub fn order_of_rows_does_not_matter()
    ensures { OrderDoesNotMatter }
{}

/// A law: one belongs to a group exactly if there is a way to it ([MS-DTYP] 2.4.2).
pub fn one_belongs_by_a_way()
    ensures { BelongsByAWay }
{}
