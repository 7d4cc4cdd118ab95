//! What holds of all bytes, for the crates above.
ghost use Rattle.std.specs.Prelude.{◌≡◌, ℕ, List};
ghost use Rattle.rank_one.specs.declared.unit.Unit.{Unit};
ghost use Rattle.rank_one.specs.Typed.{IsTyped};
ghost use Rattle.f95_source.specs.Sizes.{IsWithin};
ghost use Rattle.f95_source.specs.Source.{Reads, IsBroken, IsUnbroken};

use f95_reader::{lines_within, one_source, terminals_within};

/// Bytes read as one unit at most.
pub fn one_unit()
    ensures { (bytes : List ℕ) (a b : Unit) → Reads bytes a → Reads bytes b → a ≡ b }
{
    one_source();
}

/// Bytes that read as a unit break no rule.
pub fn breaks_nothing()
    ensures { (bytes : List ℕ) (u : Unit) (phase line rule : ℕ) → Reads bytes u → IsBroken bytes phase line rule → ⊥ }
{
    one_source();
    f95_reader::breaks_nothing();
}

/// Bytes that break no rule read as a unit.
pub fn unbroken_bytes_read()
    ensures { (bytes : List ℕ) → IsUnbroken bytes → (u : Unit) × Reads bytes u }
{
    f95_reader::unbroken_bytes_read();
    rank_one::one_unit();
}

/// What bytes read as is typed, and no larger than twice the bytes.
pub fn units_are_typed()
    ensures typed { (bytes : List ℕ) (u : Unit) → Reads bytes u → IsTyped u }
    ensures size { (bytes : List ℕ) (u : Unit) → Reads bytes u → IsWithin u bytes }
{
    lines_within();
    terminals_within();
    rank_one::units_are_typed();
}
