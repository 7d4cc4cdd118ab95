//! Tests of the blocks of a running LoopC program.
#![tactic(auto)]

#[cfg(test)]
mod blocks;
