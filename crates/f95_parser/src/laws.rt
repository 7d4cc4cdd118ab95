//! What holds of every statement's tokens, for the crates above.
ghost use Rattle.std.specs.Prelude.{◌≡◌, ◌≤◌, ℕ, List};
ghost use Rattle.f95_lexer.specs.declared.token.Token.{Token};
ghost use Rattle.f95_tree.specs.declared.form.Form.{Form};
ghost use Rattle.f95_parser.specs.Rules.{IsOfForm, Broken, most_open, most_brackets};

/// Tokens are of one form at most.
pub fn one_form()
    ensures { (tokens : List Token) (a b : Form) → IsOfForm tokens a → IsOfForm tokens b → a ≡ b }
{}

/// Tokens that break no rule are of a form, and open few brackets.
pub fn unbroken_form()
    ensures { (line : ℕ) (tokens : List Token) → ((l r : ℕ) → Broken line tokens l r → ⊥) → (form : Form) × IsOfForm tokens form
        × (most_open 0 tokens ≤ most_brackets) }
{}
