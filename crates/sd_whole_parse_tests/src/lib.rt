//! Tests of whole descriptors' texts, parsed, beside another implementation.
#![tactic(auto)]

#[cfg(test)]
mod tests;
