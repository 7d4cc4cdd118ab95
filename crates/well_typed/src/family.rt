//! The intrinsic functions by their sorts.

use f95_unit::{Elemental, Inquiry, Rearranging, Reduction};

/// The sort of an intrinsic function, and which of its sort it is.
#[derive(Clone, Copy)]
pub enum Family {
    ByElement(Elemental),
    Trimming,
    Asking(Inquiry),
    Reducing(Reduction),
    Moving(Rearranging),
}
