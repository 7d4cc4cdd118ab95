//! Tests of the variables of a running LoopC program, and of its built-ins.
#![tactic(auto)]

#[cfg(test)]
mod integers;
#[cfg(test)]
mod texts;
#[cfg(test)]
mod variables;
