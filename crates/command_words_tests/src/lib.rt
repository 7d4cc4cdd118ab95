//! Tests of command lines: which words are which command.
#![tactic(auto)]

#[cfg(test)]
mod lines;
