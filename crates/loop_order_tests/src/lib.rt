//! Tests of shapes and of orders of loops.
#![tactic(auto)]

#[cfg(test)]
mod orders;
#[cfg(test)]
mod shapes;
