//! Tests of changes of whole descriptors.
#![tactic(auto)]

#[cfg(test)]
mod tests;
