//! Worked examples of command lines: tests, and no library of their own.
#![tactic(auto)]

#[cfg(test)]
mod tests;
