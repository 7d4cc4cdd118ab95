//! Runs of the machine over terminals.

ghost use Rattle.std.specs.Prelude.{◌≡◌, ◌⊎◌, ◌∷◌, [], true, false, IfOk, MatchOption, option_map};
ghost use Rattle.f95_expressions.specs.Machine.{bracket, row, closed_at, is_closed};

use crate::machine::{ended_row, fresh, step};
use a95_base::Stack;
use f95_expressions::{Bracket, Field, Machine};
use f95_tree::Terminal;
use std::alloc::{AllocError, Global};

/// The fields of all terminals, the newest one first: exactly the well-formed fields that they spell, if they spell any.
#[tactic(auto, using(f95_expressions::proofs::Runs::row_step, f95_expressions::proofs::Runs::row_end))]
pub fn row(alloc: Global, terminals: &[Terminal]) -> Result<Option<Stack<Field>>, AllocError>
    ensures { IfOk result (λ fields. fields ≡ row terminals.now) }
{
    let mut machine = fresh(Bracket::Row, Stack::new(alloc), Stack::new(alloc))?;
    for terminal in terminals {
        machine = step(alloc, machine, terminal)?;
    }
    ended_row(alloc, machine)
}

fn is_closed(machine: &Machine) -> bool
    ensures { result ≡ is_closed machine.now }
{
    matches!(machine, Machine::Closed(_))
}

/// Fields, the newest one first, and the terminals behind the bracket that closes them.
#[derive(Drop)]
pub struct Closed<'a> {
    pub fields: Stack<Field>,
    pub rest: &'a [Terminal],
}

fn closed_at(machine: Machine, rest: &[Terminal]) -> Option<Closed<'_>>
    ensures { option_map (λ c. (c.fields, c.rest.now)) result ≡ closed_at machine rest.now }
{
    match machine {
        Machine::Closed(fields) => Some(Closed { fields, rest }),
        Machine::Waits(stack) => {
            drop(stack);
            None
        }
        Machine::Holds(stack, operand) => {
            drop(stack);
            drop(operand);
            None
        }
        Machine::Did(stack, value) => {
            drop(stack);
            drop(value);
            None
        }
        Machine::Stops => None,
    }
}

fn parted(terminals: &[Terminal]) -> Option<(&Terminal, &[Terminal])>
    ensures { MatchOption result (terminals.now ≡ []) (λ p. terminals.now ≡ p.0.now ∷ p.1.now) }
{
    terminals.split_first()
}

/// One more terminal, unless the bracket is closed or nothing is left.
fn next<'a>(machine: &Machine, terminals: &'a [Terminal]) -> Option<(&'a Terminal, &'a [Terminal])>
    ensures { MatchOption result ((is_closed machine.now ≡ true) ⊎ (terminals.now ≡ []))
        (λ p. (is_closed machine.now ≡ false) × (terminals.now ≡ p.0.now ∷ p.1.now)) }
{
    if is_closed(machine) {
        None
    } else {
        parted(terminals)
    }
}

/// The fields up to the bracket that closes, if they are well formed, and what stands behind that bracket.
pub fn bracket(alloc: Global, terminals: &[Terminal]) -> Result<Option<Closed<'_>>, AllocError>
    ensures { IfOk result (λ found. option_map (λ c. (c.fields, c.rest.now)) found ≡ bracket terminals.now) }
{
    let mut machine = fresh(Bracket::Alone, Stack::new(alloc), Stack::new(alloc))?;
    let mut rest = terminals;
    'reading: while let Some((first, more)) = next(&machine, rest) {
        machine = step(alloc, machine, first)?;
        rest = more;
    }
    Ok(closed_at(machine, rest))
}
