//! Tests of what new objects get, by rows worked by hand from [MS-DTYP] 2.5.3.4.
#![tactic(auto)]

#[cfg(test)]
mod rows;
#[cfg(test)]
mod tests;
