//! Tests of calls: each rule at its edge, and what looks like a breach and is none.
#![tactic(auto)]

#[cfg(test)]
mod arguments;
#[cfg(test)]
mod built;
#[cfg(test)]
mod procedures;
