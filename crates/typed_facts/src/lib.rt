//! What the source tells of a typed expression, as code: kinds, ranks, known lengths and extents, which shapes conform, and which
//! operators and intrinsics of the typed unit those of the source are. Each call
//! is an equation with its definition in `well_typed/specs`, or finds no memory. A length, an extent or a number of values that no
//! machine number reaches ends as want of memory does.
#![tactic(auto)]

mod counts;
mod facts;
mod operations;
mod shapes;

pub use counts::{declared_extents, extent_between, plus, size_known, times};
pub use facts::{
    copied, each, operation_facts, scalar_facts, shaped, signed_facts, variable_facts,
};
pub use operations::{binary_of, family_of, intrinsic_of, operator_of, sign_of, unary_of};
pub use shapes::{
    Extent, all_ranks_fit, are_other, differ, is_array, is_array_of, is_of, is_scalar,
    is_scalar_of, is_vector_of, joint, joint_of, rank, ranks_fit, some_differ,
};
