//! What forms nest to, with its laws, and what a statement is in its place. A list of forms, each with its line, nests to a source
//! where the source is printed as the list and each of its statements may stand where it stands. `specs/Placed` prints statements
//! in their places, `specs/Nesting` says what nests and when each rule is broken, and `specs/Machine` reads one statement a step:
//! `f95_bodies` takes that step inside a unit, and `f95_blocks` reads units over it.
#![tactic(auto)]

mod around;
mod laws;
mod open;
mod roles;

pub use around::{action_stands, body_depth, body_name};
pub use laws::{nests_as_read, one_nesting, rules_as_noted, unbroken_forms_nest};
pub use open::{
    Block, Body, BranchHead, CaseHead, DoHead, Frame, Host, IfHead, Inner, Place, SelectHead,
    State, WhereFrame, WherePart,
};
pub use roles::{
    BodyForm, ForallForm, IfPart, Opening, SelectPart, WhereForm, body_form, end_of_do, end_of_if,
    forall_form, if_part, opening_form, select_form, select_part, where_form,
};
