//! What holds of all bytes, for the crates above.
ghost use Rattle.std.specs.Prelude.{◌≡◌, ◌≤◌, ◌*◌, ℕ, List, length};
ghost use Rattle.a95_base.specs.Lists.{Every};
ghost use Rattle.f95_tree.specs.declared.source.Source.{Source};
ghost use Rattle.f95_nesting.specs.Nesting.{Lined};
ghost use Rattle.f95_reader.specs.Reading.{HasForms, ReadsSource, IsBroken, IsUnbroken};
ghost use Rattle.f95_reader.specs.Sizes.{terminal_count};

use f95_lexer::{cuts_unbroken, one_cut};
use f95_nesting::{one_nesting, unbroken_forms_nest};
use f95_parser::{one_form, unbroken_form};

/// Bytes read as one source at most.
pub fn one_source()
    ensures { (bytes : List ℕ) (a b : Source) → ReadsSource bytes a → ReadsSource bytes b → a ≡ b }
{
    one_form();
    one_cut();
    one_nesting();
}

/// Bytes that read as a source break no rule of text, forms and nesting.
pub fn breaks_nothing()
    ensures { (bytes : List ℕ) (s : Source) (phase line rule : ℕ) → ReadsSource bytes s → IsBroken bytes phase line rule → ⊥ }
{
    one_form();
    one_cut();
    cuts_unbroken();
}

/// Bytes that break no rule of text, forms and nesting read as a source.
pub fn unbroken_bytes_read()
    ensures { (bytes : List ℕ) → IsUnbroken bytes → (s : Source) × ReadsSource bytes s }
{
    cuts_unbroken();
    unbroken_form();
    unbroken_forms_nest();
}

/// Each form of bytes stands on a line of theirs, and they have no more lines than bytes.
pub fn lines_within()
    ensures { (bytes : List ℕ) (forms : List Lined) (feeds : ℕ) → HasForms bytes forms feeds
        → Every (λ f. f.0.0 ≤ length bytes) forms }
{}

/// The forms of bytes have at most twice as many terminals as there are bytes.
pub fn terminals_within()
    ensures { (bytes : List ℕ) (forms : List Lined) (feeds : ℕ) → HasForms bytes forms feeds
        → terminal_count forms ≤ 2 * length bytes }
{}
