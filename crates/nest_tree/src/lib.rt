//! Nests: statements on single elements and scalars, in loops over the elements of arrays. The lowerings make them of the typed
//! unit, passes change them, and LoopC is emitted from them. `src/` has the types; `specs/Plain` has trees and statements as
//! plain data, and `specs/View` the function from the one to the other, `unit_of`. `specs/State` has the state of a running unit
//! and its steps, `Places` what an access names, `Elements` the element trees, `Statements` what statements do, `Run` calls and
//! whole runs with the count of entries, `Accesses` what a nest reads and stores, `Sound` which units LoopC can be emitted from,
//! `RunLaws`, `Frames` and `Counts` the laws, and `StoresRows`, `ControlRows` and `CallsRows` small units with what they come to.
//!
//! What joins later: a section that is passed by descriptor is one more actual; another rule on overflow is a field of the unit
//! that the operators are handed.
#![tactic(auto)]

mod access;
mod frame;
mod laws;
mod parts;
mod rows;
mod statement;
mod tree;
mod unit;

pub use access::{Access, Along, Amount, Dimension, Form, FormTerm, Name, Portion};
pub use frame::{AnyFrame, Frame, Header};
pub use laws::{does_not_stray, entries_are_counted, more_turns, others_stay};
pub use parts::{Held, Part, Parts, Scratch};
pub use rows::{calls_rows, control_rows, fits_rows, stores_rows};
pub use statement::{Block, Guard, Made, Nest, NestList, Passed, Piece, Span, Statement};
pub use tree::{Blank, Exact, Operand, Question, Tree};
pub use unit::{Declared, NestUnit, Procedure, Role, Sort};
