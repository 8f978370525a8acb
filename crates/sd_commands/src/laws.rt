//! What holds of canonical order, of objects, of object types, of conditions, and of labels. Each law is the contract
//! of a function that does nothing.
ghost use Rattle.sd_commands.specs.Labels.{NoLineTakesAlike};
ghost use Rattle.sd_commands.specs.Limits.{ConditionsAskAlike};
ghost use Rattle.sd_commands.specs.Object.{ObjectDecidesAlike, ObjectHandsNothingOn};
ghost use Rattle.sd_commands.specs.ObjectTypes.{OneListForAllTypes, TypesChangeNoChild, TypesChangeNothing};
ghost use Rattle.sd_commands.specs.Sort.{CanonicalStays, SortedIsCanonical};

/// What `sort` prints is in canonical order, and a list that is in it stays as it is ([MS-DTYP] 2.4.5).
#[tactic(auto, using(crate::proofs::SortedOrder::sorted_canonical, crate::proofs::SortedOrder::canonical_stays))]
pub fn sorted_is_canonical()
    ensures canonical { SortedIsCanonical }
    ensures stays { CanonicalStays }
{}

/// After `--object` each check has the verdict that it has without ([MS-DTYP] 2.4.4.1).
#[tactic(auto, using(crate::proofs::ObjectList::object_decides_alike))]
pub fn object_decides_alike()
    ensures { ObjectDecidesAlike }
{}

/// After `--object` nothing is inherited ([MS-DTYP] 2.4.4.1).
#[tactic(auto, using(crate::proofs::ObjectList::object_hands_nothing_on))]
pub fn object_hands_nothing_on()
    ensures { ObjectHandsNothingOn }
{}

/// Where no effective entry has an ObjectType, an answer is about all object types: the plain descriptor is the same
/// for each ([MS-DTYP] 2.5.3.2).
#[tactic(auto, using(crate::proofs::TypesAlike::types_change_nothing))]
pub fn types_change_nothing()
    ensures { TypesChangeNothing }
{}

/// Where no entry, for children alone or not, has an ObjectType, so is what children of each class inherit ([MS-DTYP]
/// 2.5.3.4).
pub fn types_change_no_child()
    ensures { TypesChangeNoChild }
{}

/// Where a change leaves the owner and the DACL as they are, it changes nothing for any object type either: the plain
/// descriptors of each question have one owner and one list ([MS-DTYP] 2.5.3.2).
pub fn one_list_for_all_types()
    ensures { OneListForAllTypes }
{}

/// Where `compare` leaves out nothing of two SACLs, the conditions of both ask about the same claims of the object
/// ([MS-DTYP] 2.4.4.15).
#[tactic(auto, using(crate::proofs::Claims::conditions_ask_alike))]
pub fn conditions_ask_alike()
    ensures { ConditionsAskAlike }
{}

/// Where `compare` has no line of a label, both labels take the same from each level ([MS-DTYP] 2.5.3.3).
pub fn no_line_takes_alike()
    ensures { NoLineTakesAlike }
{}
