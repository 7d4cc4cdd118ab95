//! The input rule and the grammar of an INTEGER in the input are one.
ghost use Rattle.std.specs.Prelude.{◌≡◌, ◌↔◌, ℕ, ℤ, Bool, List};
ghost use Rattle.a95_base.specs.Input.{Integer, NoMore, next_value};
ghost use Rattle.record_io.specs.Grammar.{IsGap, IsNext};

/// The input rule finds an INTEGER exactly where the grammar has one, so a text has at most one reading; and it finds
/// the end exactly where nothing stands but what may part two values.
pub fn input_rule()
    ensures integer { (comma : Bool) (rest : List ℕ) (value : ℤ) (used : ℕ)
        → (next_value comma rest ≡ Integer value used) ↔ IsNext comma rest value used }
    ensures end { (comma : Bool) (rest : List ℕ) → (next_value comma rest ≡ NoMore) ↔ IsGap comma rest }
{}
