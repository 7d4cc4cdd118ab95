//! Tests that cross crates: whole command lines over objects in memory.
#![tactic(auto)]

#[cfg(test)]
mod builds;
#[cfg(test)]
mod command_lines;
#[cfg(test)]
mod runs;
