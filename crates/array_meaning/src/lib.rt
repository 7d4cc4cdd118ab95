//! What a typed unit means, by whole array values: the statement of the theorem on the compiler. Whole lists and shapes; no
//! loop over elements, no stride, descriptor, direction or temporary. `specs/Values` has array values and their places, `Scalars`
//! the operators and elemental functions, `State` the state and the steps that all is made of, `Sections` what a designator
//! names, `Reductions` and `Rearrangements` the other intrinsic functions, `Trees` the element trees, `Expressions` the parts of
//! an expression and its value, `Assignments` assignment, WHERE and FORALL, `InputOutput` PRINT and READ, `Control` all other
//! statements, `Calls` procedures, and `Run` the run of a source on an input within a number of turns.
//!
//! What joins later: a format is a field of PRINT, and its record's bytes are those of the edited values; another rule on
//! overflow is a field of the unit that is handed to the operators, so `element` and `whole` of `Trees` are then given the unit;
//! a greater rank changes nothing here.
#![tactic(auto)]

mod examples;
mod laws;

pub use examples::examples_rows;
pub use laws::{
    conforming_is_one_shape, function_calls_ignore, more_turns, pure_calls,
    pure_functions_see_actuals, stores_leave_others, values_are_full, values_are_limited,
    values_come_of_reads, values_ignore_others, values_ignore_stores,
};
