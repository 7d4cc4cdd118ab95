//! The rules that are tried at each declaration of a scope: a name that is declared twice, attributes that don't go together,
//! expressions that have to be constant, lengths, ranks and sizes. Each is told exactly on the lines that `names_types/specs/Rules`
//! has for it; of all that is told the first break is kept.
#![tactic(auto)]

mod agreement;
mod asking;
mod bounds;
mod demands;
mod lengths;
mod rules;
mod sites;
mod sizes;
mod telling;

pub use agreement::some_open;
pub use rules::{DemandRule, ObjectRule, SiteRule};
pub use sites::tell_sites;
pub use telling::{tell, tell_if};
