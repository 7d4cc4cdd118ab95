//! The order of the loops of a statement that reads the array which it stores into. Which orders are legal stands in
//! `specs/Legal.antt`, the greedy choice in `specs/Choice.antt`, and what a legal order gives in `specs/Apart.antt`.
#![tactic(auto)]

mod choice;
mod order;
mod sign;

pub use choice::choose;
pub use order::{legal, reads_come_first, stores_come_first};
