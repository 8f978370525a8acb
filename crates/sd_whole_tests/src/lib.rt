//! Tests of whole descriptors and of what is in them, as bytes and as text, beside those of another implementation.
#![tactic(auto)]

#[cfg(test)]
mod rows;
#[cfg(test)]
mod tests;
