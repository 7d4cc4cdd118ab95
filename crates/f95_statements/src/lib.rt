//! Statements that may stand behind `IF ( e )`, declarations, and the statements that begin procedures, read from terminals.
//! How each is spelled stands in `f95_tree` (`Forms`, `WellFormed`); `specs/Actions` and `specs/Declarations` say which
//! statement some terminals are.
#![tactic(auto)]

mod action;
mod declaration;
mod laws;
mod procedure;

pub use action::{
    Condition, HeaderAt, action_of, assigned, conditioned, headed, listed, name_at_end,
};
pub use declaration::{Typed, declaration_of, type_of};
pub use laws::actions_as_spelled;
pub use procedure::{procedure_of, typed_form};
