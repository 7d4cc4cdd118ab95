//! What holds of every source, for the crates above.
ghost use Rattle.std.specs.Prelude.{◌≡◌, ◌≤◌, Bool, true, List, Some};
ghost use Rattle.std.specs.List.{list_all};
ghost use Rattle.a95_base.specs.declared.source.Line.{Line};
ghost use Rattle.f95_tree.specs.declared.declaration.Declaration.{Declaration};
ghost use Rattle.f95_tree.specs.declared.source.Source.{Source};
ghost use Rattle.f95_tree.specs.declared.source.Statement.{Statement};
ghost use Rattle.f95_tree.specs.declared.source.Statement.TheVariants.{Action};
ghost use Rattle.rank_one.specs.declared.form.NamedAction.{NamedAction};
ghost use Rattle.rank_one.specs.declared.form.NamedArray.{NamedArray};
ghost use Rattle.rank_one.specs.declared.unit.Unit.{Unit};
ghost use Rattle.rank_one.specs.Forms.{named_in, arrays_in};
ghost use Rattle.rank_one.specs.Grammar.{IsStated, declaration_tree, action_tree, is_integer_value, fits_action};
ghost use Rattle.rank_one.specs.Reading.{IsBuilt, AreDeclared, Fits, IsUnit};
ghost use Rattle.rank_one.specs.Sizes.{terminals_in};
ghost use Rattle.rank_one.specs.Typed.{IsTyped, size_of};

/// A statement or a declaration is of the first form where it is printed so, and is what it is printed from.
pub fn forms_as_printed()
    ensures statement { (x : Statement) (a : NamedAction) → named_in x ≡ Some a → IsStated x a }
    ensures stated { (l : Line) (a : NamedAction) → fits_action a ≡ true → named_in (Action l (action_tree a)) ≡ Some a }
    ensures declaration { (d : Declaration) (arrays : List NamedArray) → arrays_in d ≡ Some arrays → declaration_tree d.colons arrays ≡ d }
    ensures declared { (colons : Bool) (arrays : List NamedArray) → list_all (λ a. is_integer_value a.extent) arrays ≡ true
        → arrays_in (declaration_tree colons arrays) ≡ Some arrays }
{}

/// A source that breaks no rule is one unit, and one that is a unit breaks none.
pub fn one_unit()
    ensures one { (s : Source) (a b : Unit) → IsUnit s a → IsUnit s b → a ≡ b }
    ensures some { (s : Source) → IsBuilt s → AreDeclared s → (u : Unit) × IsUnit s u }
{}

/// What a source is, is typed, and no larger than the terminals that spell the source.
pub fn units_are_typed()
    ensures typed { (s : Source) (u : Unit) → Fits s → IsUnit s u → IsTyped u }
    ensures size { (s : Source) (u : Unit) → IsUnit s u → size_of u ≤ terminals_in s }
{}
