//! Tests of how programs of LoopC are made, and of their texts.
#![tactic(auto)]

#[cfg(test)]
mod given;
#[cfg(test)]
mod programs;
