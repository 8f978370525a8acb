//! Tests of whole DACLs for one question, of labels, and of questions about whole descriptors and
//! trees of object types.
#![tactic(auto)]

#[cfg(test)]
mod access_tests;
#[cfg(test)]
mod children_tests;
#[cfg(test)]
mod marked_tests;
#[cfg(test)]
mod rows;
#[cfg(test)]
mod tests;
#[cfg(test)]
mod types_tests;
