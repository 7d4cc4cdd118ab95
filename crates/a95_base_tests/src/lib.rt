//! Tests of what all crates stand on: INTEGER arithmetic, CHARACTER values, texts of bytes, and numbers of faults.
#![tactic(auto)]

#[cfg(test)]
mod integers;
#[cfg(test)]
mod texts;
