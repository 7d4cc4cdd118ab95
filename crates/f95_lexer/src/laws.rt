//! What holds of every text, for the crates above.
ghost use Rattle.std.specs.Prelude.{◌≡◌, ℕ, List};
ghost use Rattle.f95_lexer.specs.declared.token.Statement.{Statement};
ghost use Rattle.f95_lexer.specs.Rules.{IsBroken};
ghost use Rattle.f95_lexer.specs.Spelling.{Cuts};

/// A text cuts into statements in at most one way.
pub fn one_cut()
    ensures { (bytes : List ℕ) (a b : List Statement) (m n : ℕ) → Cuts bytes a m → Cuts bytes b n → (a ≡ b) × (m ≡ n) }
{}

/// A text cuts into statements where it breaks no rule, and nowhere else.
pub fn cuts_unbroken()
    ensures cuts { (bytes : List ℕ) → ((line rule : ℕ) → IsBroken bytes line rule → ⊥)
        → (statements : List Statement) × (feeds : ℕ) × Cuts bytes statements feeds }
    ensures only { (bytes : List ℕ) (statements : List Statement) (feeds line rule : ℕ)
        → Cuts bytes statements feeds → IsBroken bytes line rule → ⊥ }
{}
