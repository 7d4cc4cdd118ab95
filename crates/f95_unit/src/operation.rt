//! Operators, and the intrinsic functions by their sorts.

#[derive(Clone, Copy)]
pub enum UnaryOp {
    Plus,
    Minus,
    Not,
}

#[derive(Clone, Copy)]
pub enum BinaryOp {
    Power,
    Multiply,
    Divide,
    Add,
    Subtract,
    Concat,
    Equal,
    NotEqual,
    Less,
    LessEqual,
    Greater,
    GreaterEqual,
    And,
    Or,
    Equivalent,
    NotEquivalent,
}

/// Functions that act element by element.
#[derive(Clone, Copy)]
pub enum Elemental {
    Abs,
    Mod,
    Modulo,
    Sign,
    Max,
    Min,
    Iand,
    Ior,
    Ieor,
    Merge,
    Ichar,
    Char,
    LenTrim,
    Index,
    Adjustl,
    Adjustr,
}

/// Functions that ask for shapes, bounds, allocation and lengths, and evaluate no element.
#[derive(Clone, Copy)]
pub enum Inquiry {
    Size,
    Shape,
    Lbound,
    Ubound,
    Allocated,
    Len,
}

/// Functions that make one value of many elements.
#[derive(Clone, Copy)]
pub enum Reduction {
    Sum,
    Product,
    Maxval,
    Minval,
    All,
    Any,
    Count,
    Maxloc,
    Minloc,
    DotProduct,
    Matmul,
}

/// Functions that put elements into other places.
#[derive(Clone, Copy)]
pub enum Rearranging {
    Transpose,
    Cshift,
    Eoshift,
    Spread,
    Pack,
    Unpack,
    Reshape,
}
