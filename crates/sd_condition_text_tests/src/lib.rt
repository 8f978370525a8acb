//! Tests of conditions as text, beside those of another implementation.
#![tactic(auto)]

#[cfg(test)]
mod tests;
