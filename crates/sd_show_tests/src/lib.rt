//! Tests of whole descriptors in words, and of what differs between two.
#![tactic(auto)]

#[cfg(test)]
mod tests;
