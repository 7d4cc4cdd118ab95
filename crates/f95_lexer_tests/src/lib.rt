//! Tests of the crate `f95_lexer`: what texts come to, with ample memory, by tables of worked examples.
#![tactic(auto)]

#[cfg(test)]
mod outcome;
#[cfg(test)]
mod texts;
