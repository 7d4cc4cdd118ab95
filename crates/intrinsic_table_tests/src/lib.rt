//! Tests of the intrinsics: each name with its sort and its arguments, and words that name none.
#![tactic(auto)]

#[cfg(test)]
mod arguments;
#[cfg(test)]
mod words;
