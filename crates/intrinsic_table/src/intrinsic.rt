//! Which intrinsics there are, and of which sorts.

/// How the value of an intrinsic comes of its arguments.
#[derive(Clone, Copy, Debug, PartialEq, Eq)]
pub enum Sort {
    /// Element by element.
    Elemental,
    /// A text of a scalar text: TRIM.
    ScalarText,
    /// Of shapes, bounds, lengths or allocation; no element of the argument is evaluated.
    Inquiry,
    /// One value, or fewer dimensions, of many elements: MATMUL and DOT_PRODUCT too.
    Reduction,
    /// The elements in other places.
    Rearranging,
}

/// One variant for each name.
#[derive(Clone, Copy, Debug, PartialEq, Eq)]
pub enum Intrinsic {
    Abs,
    Mod,
    Modulo,
    Sign,
    Max,
    Min,
    Iand,
    Ior,
    Ieor,
    Merge,
    Ichar,
    Char,
    LenTrim,
    Index,
    Adjustl,
    Adjustr,
    Trim,
    Size,
    Shape,
    Lbound,
    Ubound,
    Allocated,
    Len,
    Sum,
    Product,
    Maxval,
    Minval,
    All,
    Any,
    Count,
    Maxloc,
    Minloc,
    DotProduct,
    Matmul,
    Transpose,
    Cshift,
    Eoshift,
    Spread,
    Pack,
    Unpack,
    Reshape,
}
