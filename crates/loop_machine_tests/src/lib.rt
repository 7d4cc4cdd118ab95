//! Tests of the machine that runs LoopC.
#![tactic(auto)]

#[cfg(test)]
mod loop_machines;
#[cfg(test)]
mod parts;
