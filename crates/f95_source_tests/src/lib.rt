//! Tests of the reader as far as today's form: bytes that read as a unit, and what others are refused for.
#![tactic(auto)]

#[cfg(test)]
mod sources;
