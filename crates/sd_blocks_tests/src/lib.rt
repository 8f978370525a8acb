//! Tests of lists in shared blocks, beside vectors.
#![tactic(auto)]

#[cfg(test)]
mod tests;
