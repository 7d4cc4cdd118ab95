//! The lines of MAX, MIN and MERGE, and of elemental functions at all.
ghost use Rattle.std.specs.Prelude.{◌≡◌, ◌++◌, ◌∷◌, [], ◌-◌, ◌<◌, ◌+◌, Bool, suc, OnOk, IfOk};
ghost use Rattle.loop_tree.specs.declared.tree.Stmt.TheVariants as stmt;
ghost use Rattle.nest_tree.specs.Plain.{Trees};
ghost use Rattle.nest_emit.specs.Trees as lines;
ghost use Rattle.nest_sorts.specs.Seen.{operand_of, trees_of};
ghost use Rattle.element_atoms.specs.Added.{IsSameBody};
ghost use Rattle.element_atoms.specs.Positions.{scope_at, each_at};

use crate::arguments::{atom_at, behind_all, words_at};
use crate::elementals::elemental_lines;
use element_atoms::{Position, after, atom_of, branch, compute, say, set, setting};
use f95_unit::Elemental;
use loop_tree::{Atom, Code, IntValue, Operator, TextValue};
use nest_sorts::{elemental_sort, sorts_of};
use nest_tree::{Operand, Sort};
use std::alloc::{AllocError, Global};

// ---- the greatest and the least

/// A better value is kept, where the test behind it tells.
fn better_line(
    alloc: Global,
    greatest: bool,
    best: u32,
    a: Atom,
    code: &mut Code,
) -> Result<(), AllocError>
    ensures rows { OnOk result (code.new.statements ≡ code.old.statements ++ lines.better_line greatest best a ∷ []) }
    ensures body { OnOk result (IsSameBody code.old code.new) }
{
    let test = after(best)?;
    let stays = branch(alloc, code)?;
    let changes = setting(alloc, code, best, IntValue::Atom(a))?;
    if greatest {
        code.push_if_else(alloc, Atom::Int(test), stays, changes)
    } else {
        code.push_if_else(alloc, Atom::Int(test), changes, stays)
    }
}

/// One more argument, which stands in variable k or in its atom.
fn operand_lines(
    alloc: Global,
    position: &Position,
    numbers: (u32, u32),
    greatest: bool,
    operand: &Operand,
    code: &mut Code,
) -> Result<(), AllocError>
    ensures rows { OnOk result ((more : Trees) →
        code.new.statements ++ lines.better_lines (scope_at position.now) position.now.nests greatest numbers.0 (suc numbers.1) more
        ≡ code.old.statements
        ++ lines.better_lines (scope_at position.now) position.now.nests greatest numbers.0 numbers.1
        (operand_of operand.now more)) }
    ensures body { OnOk result (IsSameBody code.old code.new) }
{
    let (best, k) = numbers;
    let test = after(best)?;
    let a = atom_of(position, k, &operand.value)?;
    compute(test, a, Operator::Less, Atom::Int(best), code)?;
    better_line(alloc, greatest, best, a, code)
}

fn better_lines(
    alloc: Global,
    position: &Position,
    numbers: (u32, u32),
    greatest: bool,
    operands: &[Operand],
    code: &mut Code,
) -> Result<(), AllocError>
    ensures rows { OnOk result (code.new.statements ≡ code.old.statements
        ++ lines.better_lines (scope_at position.now) position.now.nests greatest numbers.0 numbers.1 (trees_of operands.now)) }
    ensures body { OnOk result (IsSameBody code.old code.new) }
{
    let best = numbers.0;
    let mut k = numbers.1;
    for operand in operands {
        operand_lines(alloc, position, (best, k), greatest, operand, code)?;
        k = after(k)?;
    }
    Ok(())
}

/// The first argument is the best so far.
fn first_line(
    position: &Position,
    t: u32,
    best: u32,
    operand: &Operand,
    code: &mut Code,
) -> Result<(), AllocError>
    ensures rows { OnOk result ((greatest : Bool) (more : Trees) →
        code.new.statements ++ (lines.better_lines (scope_at position.now) position.now.nests greatest best (suc t) more
        ++ lines.set t (IntValue.Atom (Atom.Int best)) ∷ [])
        ≡ code.old.statements
        ++ lines.best_lines (scope_at position.now) position.now.nests greatest t best (operand_of operand.now more)) }
    ensures body { OnOk result (IsSameBody code.old code.new) }
{
    let a = atom_of(position, t, &operand.value)?;
    set(best, IntValue::Atom(a), code)
}

fn best_lines(
    alloc: Global,
    position: &Position,
    greatest: bool,
    t: u32,
    operands: &[Operand],
    code: &mut Code,
) -> Result<(), AllocError>
    ensures rows { OnOk result (code.new.statements ≡ code.old.statements
        ++ lines.best_lines (scope_at position.now) position.now.nests greatest t
        (t + lines.count_trees (trees_of operands.now)) (trees_of operands.now)) }
    ensures body { OnOk result (IsSameBody code.old code.new) }
{
    let best = behind_all(t, operands)?;
    let Some((first, more)) = operands.split_first() else {
        return Ok(());
    };
    let u = after(t)?;
    first_line(position, t, best, first, code)?;
    better_lines(alloc, position, (best, u), greatest, more, code)?;
    set(t, IntValue::Atom(Atom::Int(best)), code)
}

// ---- MERGE

/// A branch that keeps the argument with a place in variable t.
fn keeping(
    alloc: Global,
    position: &Position,
    sort: Option<Sort>,
    numbers: (u32, u32),
    operands: &[Operand],
    code: &Code,
) -> Result<Code, AllocError>
    ensures branch { IfOk result (λ c. c ≡ record {
      statements = lines.keep sort numbers.1
          (lines.atom_at (scope_at position.now) position.now.nests numbers.0 numbers.1 (trees_of operands.now))
          (lines.words_at (scope_at position.now) position.now.nests numbers.0 numbers.1 (trees_of operands.now)) ∷ [];
      room = code.now.room - 1;
      in_loop = code.now.in_loop;
    }) }
    ensures room { IfOk result (λ c. 0 < code.now.room) }
{
    let mut body = branch(alloc, code)?;
    match keep_line(alloc, position, sort, numbers, operands, &mut body) {
        Ok(()) => Ok(body),
        Err(e) => {
            drop(body);
            Err(e)
        }
    }
}

/// Variable t keeps the argument with a place: first the place, then t.
fn keep_line(
    alloc: Global,
    position: &Position,
    sort: Option<Sort>,
    numbers: (u32, u32),
    operands: &[Operand],
    code: &mut Code,
) -> Result<(), AllocError>
    ensures rows { OnOk result (code.new.statements ≡ code.old.statements ++ lines.keep sort numbers.1
        (lines.atom_at (scope_at position.now) position.now.nests numbers.0 numbers.1 (trees_of operands.now))
        (lines.words_at (scope_at position.now) position.now.nests numbers.0 numbers.1 (trees_of operands.now)) ∷ []) }
    ensures body { OnOk result (IsSameBody code.old code.new) }
{
    let (place, t) = numbers;
    match sort {
        Some(Sort::Text) => {
            let w = words_at(alloc, position, place, t, operands)?;
            say(alloc, t, TextValue::Atom(w), code)
        }
        _ => {
            let a = atom_at(position, place, t, operands)?;
            set(t, IntValue::Atom(a), code)
        }
    }
}

fn merge_lines(
    alloc: Global,
    position: &Position,
    t: u32,
    operands: &[Operand],
    code: &mut Code,
) -> Result<(), AllocError>
    ensures rows { OnOk result (code.new.statements ≡ code.old.statements
        ++ each_at position.now Elemental.Merge t (trees_of operands.now)) }
    ensures body { OnOk result (IsSameBody code.old code.new) }
{
    let sorts = sorts_of(alloc, &position.scope, operands)?;
    let sort = elemental_sort(Elemental::Merge, sorts.as_slice());
    let test = atom_at(position, 2, t, operands)?;
    let first = keeping(alloc, position, sort, (0, t), operands, code)?;
    match keeping(alloc, position, sort, (1, t), operands, code) {
        Ok(second) => code.push_if_else(alloc, test, first, second),
        Err(e) => {
            drop(first);
            Err(e)
        }
    }
}

// ---- all

/// The lines of a function of its first two arguments.
fn elemental_of(
    alloc: Global,
    position: &Position,
    which: Elemental,
    t: u32,
    operands: &[Operand],
    code: &mut Code,
) -> Result<(), AllocError>
    ensures rows { OnOk result (code.new.statements ≡ code.old.statements
        ++ lines.elemental_lines which t (t + lines.count_trees (trees_of operands.now))
        (lines.atom_at (scope_at position.now) position.now.nests 0 t (trees_of operands.now))
        (lines.atom_at (scope_at position.now) position.now.nests 1 t (trees_of operands.now))
        (lines.words_at (scope_at position.now) position.now.nests 0 t (trees_of operands.now))) }
    ensures body { OnOk result (IsSameBody code.old code.new) }
{
    let test = behind_all(t, operands)?;
    let a = atom_at(position, 0, t, operands)?;
    let b = atom_at(position, 1, t, operands)?;
    let v = words_at(alloc, position, 0, t, operands)?;
    let done = elemental_lines(alloc, which, (t, test), a, b, &v, code);
    drop(v);
    done
}

/// The lines behind those of the arguments.
pub fn each_lines(
    alloc: Global,
    position: &Position,
    which: Elemental,
    t: u32,
    operands: &[Operand],
    code: &mut Code,
) -> Result<(), AllocError>
    ensures rows { OnOk result (code.new.statements ≡ code.old.statements
        ++ each_at position.now which t (trees_of operands.now)) }
    ensures body { OnOk result (IsSameBody code.old code.new) }
{
    match which {
        Elemental::Max => best_lines(alloc, position, true, t, operands, code),
        Elemental::Min => best_lines(alloc, position, false, t, operands, code),
        Elemental::Merge => merge_lines(alloc, position, t, operands, code),
        _ => elemental_of(alloc, position, which, t, operands, code),
    }
}
