//! Laws on the output of scripts, proved by laws on trees. A law is a function with an empty body whose contract is the
//! law; nobody needs to call it.
#![tactic(auto)]

mod laws;

pub use laws::dump_makes_the_tree_again;
