//! One call beside the procedure that it names: the rules 41 to 46 of the reader's phase 6, as they stand on one reference.
//! `specs/Interfaces` says what a reference sees of a procedure, `specs/Acts` what of a statement the rules speak of, `specs/Rules`
//! when a reference breaks each of them, and `specs/Found` what it makes of the first break that was found. `proc_check` goes
//! through a whole unit with these.
#![tactic(auto)]

mod actuals;
mod caller;
mod first;
mod interface;
mod reference;

pub use actuals::is_in;
pub use caller::{Caller, enter};
pub use first::noted;
pub use interface::{
    Dummy, Interface, interface_of, interfaces_of, is_dummy, kind_of, known_length, rank_of,
};
pub use reference::{at_reference, at_transfer};
