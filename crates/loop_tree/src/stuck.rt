//! The stuck states: why a program has no step.
ghost use Rattle.std.specs.Prelude.{◌≡◌};
ghost use Rattle.loop_tree.specs.Stuck.{stuck_number};

/// Why a program has no step. `number` is what the product prints: `OutsideBlock` is S1.
#[derive(Clone, Copy, Debug, PartialEq, Eq)]
pub enum StuckState {
    /// An index is outside its block.
    OutsideBlock,
    /// A reference is to nothing, or to a block that no longer lives.
    NoBlock,
    /// The right operand of `/` or `%` is 0.
    ZeroDivisor,
    /// A call names no function or function 0, or its arguments don't match in number and letter.
    WrongCall,
    /// A block's size is negative or above 2^24, or the length of its texts is outside 0 to 255.
    BlockSize,
    /// A part is outside its text, or a text isn't of one byte, or a length is negative.
    OutsideText,
    /// A number is that of no byte.
    NoByte,
    /// An integer is taken where none is next.
    NoInteger,
    /// An exponent is negative.
    NegativeExponent,
}

impl StuckState {
    /// The printed number, from 1 to 9.
    pub fn number(self) -> u8
        ensures { result ≡ stuck_number self }
    {
        match self {
            StuckState::OutsideBlock => 1,
            StuckState::NoBlock => 2,
            StuckState::ZeroDivisor => 3,
            StuckState::WrongCall => 4,
            StuckState::BlockSize => 5,
            StuckState::OutsideText => 6,
            StuckState::NoByte => 7,
            StuckState::NoInteger => 8,
            StuckState::NegativeExponent => 9,
        }
    }
}
