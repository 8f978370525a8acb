//! Worked examples of streams, of scripts whole and line by line, and of audits: tests, and no library of their own.
#![tactic(auto)]

#[cfg(test)]
mod tests;
