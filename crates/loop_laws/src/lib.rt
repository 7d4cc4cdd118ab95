//! Laws of LoopC, for all that writes it: the step of the machine is opened here, once, and no proof above opens it again.
//! A state stands as its variables, the lines that come next and the open braces (`specs/At.antt`). One law tells where each
//! row leads (`specs/Rows.antt`), others where choices, loops and breaks do (`specs/Braces.antt`). What a run comes to is
//! proved backwards, a step or a statement in front of the rest (`specs/Meets.antt`, `specs/Statements.antt`), variables and
//! blocks by their numbers (`specs/Numbered.antt`). At last, a program that does forward what any source does, for each
//! number of turns, follows it in both directions (`specs/Follows.antt`).
//!
//! Each function is a law: it does nothing, and its contract is the theorem. The lemmas in `proofs/` are the same, for the
//! proofs of the crates above.
#![tactic(auto)]

mod directions;
mod flow;
mod numbers;
mod runs;
mod steps;

pub use directions::{follows_both_ways, with_more_turns};
pub use flow::{choices, closing_braces, leaving_loops, lines_of_statements, loops};
pub use numbers::{blocks_by_number, living_blocks, values_within, variables_by_number};
pub use runs::{
    downward_loop, endless_loop, ends, rows_in_front, statements_in_front, steps_in_front,
    upward_loop,
};
pub use steps::{calls, integers_and_texts, new_blocks, records_and_ends, stores_and_references};
