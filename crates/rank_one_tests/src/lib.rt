//! Tests of the reader of the first source form.
#![tactic(auto)]

#[cfg(test)]
mod reads;
