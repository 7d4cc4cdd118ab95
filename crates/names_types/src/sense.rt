//! What a name means in an expression whose value is known before a run.

use constant_operators::Valued;
use intrinsic_table::Intrinsic;

#[derive(Drop)]
pub enum Sense {
    /// A scalar that may be named.
    Names(Valued),
    /// An array whose bounds may be asked for.
    NamesArray,
    NamesIntrinsic(Intrinsic),
    NamesOther,
}
