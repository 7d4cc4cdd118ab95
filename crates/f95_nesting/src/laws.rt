//! What holds of every list of forms, for the crates above.
ghost use Rattle.std.specs.Prelude.{◌≡◌, ℕ, List};
ghost use Rattle.a95_base.specs.Lists.{Member};
ghost use Rattle.f95_tree.specs.declared.source.Source.{Source};
ghost use Rattle.f95_nesting.specs.Nesting.{Lined, Nests, Begins, IsBroken};
ghost use Rattle.a95_base.specs.declared.breaks.Break.{Break};
ghost use Rattle.a95_base.specs.Breaks.{broken_at};
ghost use Rattle.f95_nesting.specs.Breaks.{breaks};
ghost use Rattle.f95_nesting.specs.Machine.{run, start};
ghost use Rattle.f95_nesting.specs.declared.open.State.TheVariants.{Ended, Stops};

/// A list of forms nests to at most one source.
pub fn one_nesting()
    ensures { (forms : List Lined) (a b : Source) → Nests forms a → Nests forms b → a ≡ b }
{}

/// The machine reads what nests and nothing else, and stops where no nesting begins and nowhere else.
pub fn nests_as_read()
    ensures read { (forms : List Lined) (s : Source) → Nests forms s → run start forms ≡ Ended s }
    ensures only { (forms : List Lined) (s : Source) → run start forms ≡ Ended s → Nests forms s }
    ensures begins { (forms : List Lined) → (run start forms ≡ Stops → ⊥) → Begins forms }
    ensures stops { (forms : List Lined) → run start forms ≡ Stops → Begins forms → ⊥ }
{}

/// What is noted along the run of the machine is exactly what the rules say, each with its line.
pub fn rules_as_noted()
    ensures noted { (forms : List Lined) (feeds : ℕ) (b : Break) → Member (breaks forms feeds) b → IsBroken forms feeds b.line b.rule }
    ensures broken { (forms : List Lined) (feeds line rule : ℕ) → IsBroken forms feeds line rule →
        Member (breaks forms feeds) (broken_at line rule) }
{}

/// Forms that break no rule nest.
pub fn unbroken_forms_nest()
    ensures { (forms : List Lined) (feeds : ℕ) → ((line rule : ℕ) → IsBroken forms feeds line rule → ⊥) →
        (s : Source) × Nests forms s }
{}
