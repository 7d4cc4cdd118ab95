//! What a module has for USE: its constants and procedures, and those that its own USE statements bring.
#![tactic(auto)]

mod offers;

pub use offers::offer_of;
