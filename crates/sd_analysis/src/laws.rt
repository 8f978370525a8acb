//! What ties the analysis to the check, and what few tokens say of all.

ghost use Rattle.sd_analysis.specs.Base.{BitIsItsCheck};
ghost use Rattle.sd_analysis.specs.Creators.{BelowIsAsInIt, CreatorsStandForAll, EachHasAStandIn, UnnamedUsersAreAlike};

/// A request for one bit below place 21 is granted just where the bit is, in whose words the analysis speaks.
pub fn bit_is_its_check()
    ensures { BitIsItsCheck }
{}

/// Without NO_PROPAGATE_INHERIT what is made below a new container has the list that it would have in the container
/// itself ([MS-DTYP] 2.5.3.4): so `descendants_of` leaves it out.
pub fn below_is_as_in_it()
    ensures { BelowIsAsInIt }
{}

/// What the list of a new child grants with CREATOR OWNER and CREATOR GROUP as its owner and group, it grants with any
/// other owner and group, to the tokens that have these in the same state ([MS-DTYP] 2.5.3.4). Each token has such a
/// one. So what is found of a `Descendant` holds whoever owns it, but OWNER RIGHTS, which owns
/// nothing.
pub fn creators_stand_for_all()
    ensures granted { CreatorsStandForAll }
    ensures each { EachHasAStandIn }
{}

/// What a user whom neither descriptor names gains, each such user does, with the same groups.
pub fn unnamed_users_are_alike()
    ensures { UnnamedUsersAreAlike }
{}
