//! What is known of values, as the contract of a function that does nothing.
ghost use Rattle.constant_operators.specs.Laws.{KnownWithin};

/// A constant operation has a value exactly where it doesn't leave 32 bits.
pub fn known_within()
    ensures { KnownWithin }
{}
