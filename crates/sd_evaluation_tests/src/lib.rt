//! Tests of the evaluation of conditions, beside another implementation.
#![tactic(auto)]

#[cfg(test)]
mod rows;
#[cfg(test)]
mod tests;
