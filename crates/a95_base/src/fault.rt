//! Runtime faults. Their numbers stand in `specs/Fault.antt`.
ghost use Rattle.std.specs.Prelude.{◌≡◌};
ghost use Rattle.a95_base.specs.Fault.{fault_number, kind_of};

/// What ends a running program early. `number` is what the product prints: `ZeroDivide` is F1.
#[derive(Clone, Copy, Debug, PartialEq, Eq)]
pub enum FaultKind {
    /// The divisor of `/`, MOD or MODULO is 0, or 0 has a negative power.
    ZeroDivide,
    /// A subscript or a bound of a substring is out of range.
    Bounds,
    /// Shapes that must conform differ.
    Shape,
    /// The stride of a section, FORALL, DO or implied DO is 0.
    ZeroStep,
    /// A store names one element twice.
    ManyOne,
    /// Two designators of a call overlap, and one of them is modified.
    Overlap,
    /// An array value would have more than 2^24 elements.
    TooLarge,
    /// An array that isn't allocated is used or deallocated.
    NotAllocated,
    /// An allocated array is allocated.
    Allocated,
    /// READ needs a value or a record, and none is left.
    EndOfInput,
    /// READ meets something that is no INTEGER.
    BadInput,
    /// The argument of CHAR is outside 0 to 255.
    CharRange,
    /// A call would be the 1,001st active one.
    CallDepth,
    /// An argument of an intrinsic breaks a condition at run time.
    Argument,
    /// An extent or a length of a dummy differs from the actual's.
    DummyShape,
}

impl FaultKind {
    /// The printed number, from 1 to 15.
    pub fn number(self) -> u8
        ensures { result ≡ fault_number self }
    {
        match self {
            FaultKind::ZeroDivide => 1,
            FaultKind::Bounds => 2,
            FaultKind::Shape => 3,
            FaultKind::ZeroStep => 4,
            FaultKind::ManyOne => 5,
            FaultKind::Overlap => 6,
            FaultKind::TooLarge => 7,
            FaultKind::NotAllocated => 8,
            FaultKind::Allocated => 9,
            FaultKind::EndOfInput => 10,
            FaultKind::BadInput => 11,
            FaultKind::CharRange => 12,
            FaultKind::CallDepth => 13,
            FaultKind::Argument => 14,
            FaultKind::DummyShape => 15,
        }
    }

    /// The kind with this number, or None where there is none.
    pub fn from_number(number: u8) -> Option<FaultKind>
        ensures { result ≡ kind_of number }
    {
        match number {
            1 => Some(FaultKind::ZeroDivide),
            2 => Some(FaultKind::Bounds),
            3 => Some(FaultKind::Shape),
            4 => Some(FaultKind::ZeroStep),
            5 => Some(FaultKind::ManyOne),
            6 => Some(FaultKind::Overlap),
            7 => Some(FaultKind::TooLarge),
            8 => Some(FaultKind::NotAllocated),
            9 => Some(FaultKind::Allocated),
            10 => Some(FaultKind::EndOfInput),
            11 => Some(FaultKind::BadInput),
            12 => Some(FaultKind::CharRange),
            13 => Some(FaultKind::CallDepth),
            14 => Some(FaultKind::Argument),
            15 => Some(FaultKind::DummyShape),
            _ => None,
        }
    }
}
