//! Tests of the reader's third phase: which sources nest, and which rule the others break, on which line.
#![tactic(auto)]

#[cfg(test)]
mod nesting;
