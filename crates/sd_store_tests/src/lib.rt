//! Calls of the crates that neither the program nor the library for C makes: the store of many threads above all. Tests
//! that depend on several crates, and no library of their own.
#![tactic(auto)]

#[cfg(test)]
mod tests;
