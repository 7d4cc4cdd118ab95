//! What the lines of element trees are made of: the numbers of variables, atoms, rows and places. Each function is its definition in
//! `nest_emit/specs/Numbers` or `Trees`; what pushes to a body says which lines came behind those that were there, and that all else
//! of the body is as before. A number that has no 32 bits, or a brace for which there is no room, is answered as want of memory.
#![tactic(auto)]

mod leaves;
mod numbers;
mod pair;
mod places;
mod position;
mod rows;

pub use leaves::{amount_atom, atom_of, words_of};
pub use numbers::{
    after, array_number, counted, extent_number, first_free, leaving_number, length_number,
    loop_number, lower_number, plus, scalar_number,
};
pub use pair::{Pair, are_texts, first_atom, first_words, second_atom, second_words};
pub use places::{part_lines, place_atom, place_lines};
pub use position::Position;
pub use rows::{
    branch, cell_lines, compute, computed, either, reference_to, say, set, setting, unless_fault,
};
