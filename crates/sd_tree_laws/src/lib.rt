//! What follows from the rules of the tree, as laws over all trees, edits, tokens and requests.
//!
//! Each law is the contract of a function with an empty body: a caller of it has the law. No crate needs one to be
//! right; proofs above a tree may cite them. docs/PROOFS.md lists them.
#![tactic(auto)]

mod laws;

pub use laws::{
    dacl_is_of_parent, edit_stays_below, every_list_is_canonical, inherited_has_id,
    keeping_lets_nobody_in, lawful_trees_are_closed, move_back_undoes_it, move_carries_the_subtree,
    move_keeps_lists, no_propagate_goes_one_level, nothing_waits_in_an_object,
    order_grants_nothing, protected_stands_alone, protecting_first_lets_nobody_in,
    same_tree_answers_alike, stored_keeps_or_inherits, trustee_stays_in_the_node,
    unmarked_entry_stays,
};
