//! Laws of the lowering, for the layers above: each is the contract of a function that does nothing.

ghost use Rattle.control_lower.specs.Laws.{LoweredDoes, LoweredIsSound};

/// The nests of a unit do what the unit does, on every input and within any number of turns: they end, fault or go on as it does,
/// with the same output.
pub fn lowered_does()
    ensures { LoweredDoes }
{}

/// LoopC can be emitted from the nests of a unit, if no more than 64 blocks stand inside one another and the unit has no more than
/// 2^20 nodes: each value has the sort that its place asks for, the text is within its limits, and no run strays.
pub fn lowered_is_sound()
    ensures { LoweredIsSound }
{}
