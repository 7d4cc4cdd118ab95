//! Rows and choices that are pushed to a body.
ghost use Rattle.std.specs.Prelude.{◌≡◌, ◌++◌, ◌∷◌, [], ◌-◌, ◌<◌, OnOk, IfOk};
ghost use Rattle.loop_tree.specs.declared.tree.Stmt.TheVariants as stmt;
ghost use Rattle.nest_emit.specs.Trees.{set, say, compute, computed, unless_fault, reference_to, cell_lines};
ghost use Rattle.element_atoms.specs.Added.{IsSameBody};

use a95_base::FaultKind;
use loop_tree::{Atom, Code, ControlRow, IntValue, Operator, Reference, Row, TextAtom, TextValue};
use nest_tree::Sort;
use sqlite_items::Boxed;
use std::alloc::{AllocError, Global};

/// An integer variable takes a value.
pub fn set(t: u32, value: IntValue, code: &mut Code) -> Result<(), AllocError>
    ensures rows { OnOk result (code.new.statements ≡ code.old.statements ++ set t value ∷ []) }
    ensures body { OnOk result (IsSameBody code.old code.new) }
{
    code.push_row(Row::Int(t, value))
}

/// A text variable takes a value.
pub fn say(alloc: Global, t: u32, value: TextValue, code: &mut Code) -> Result<(), AllocError>
    ensures rows { OnOk result (code.new.statements ≡ code.old.statements ++ say t value ∷ []) }
    ensures body { OnOk result (IsSameBody code.old code.new) }
{
    let value = Boxed::new(alloc, value)?;
    code.push_row(Row::Text(t, value))
}

/// An integer variable takes what an operator gives.
pub fn compute(t: u32, a: Atom, op: Operator, b: Atom, code: &mut Code) -> Result<(), AllocError>
    ensures rows { OnOk result (code.new.statements ≡ code.old.statements ++ compute t a op b ∷ []) }
    ensures body { OnOk result (IsSameBody code.old code.new) }
{
    set(t, IntValue::Operation(a, op, b), code)
}

/// The same, in 32 bits.
pub fn computed(t: u32, a: Atom, op: Operator, b: Atom, code: &mut Code) -> Result<(), AllocError>
    ensures rows { OnOk result (code.new.statements ≡ code.old.statements ++ computed t a op b) }
    ensures body { OnOk result (IsSameBody code.old code.new) }
{
    compute(t, a, op, b, code)?;
    set(t, IntValue::Wrap(Atom::Int(t)), code)
}

/// No statements of a branch of a choice in this body.
pub fn branch(alloc: Global, code: &Code) -> Result<Code, AllocError>
    ensures branch { IfOk result
        (λ b. b ≡ record { statements = []; room = code.now.room - 1; in_loop = code.now.in_loop }) }
    ensures room { IfOk result (λ b. 0 < code.now.room) }
{
    if code.room() == 0 {
        return Err(AllocError);
    }
    Ok(code.branch(alloc))
}

/// A branch of one statement that sets an integer variable.
pub fn setting(alloc: Global, code: &Code, t: u32, value: IntValue) -> Result<Code, AllocError>
    ensures branch { IfOk result
        (λ b. b ≡ record { statements = set t value ∷ []; room = code.now.room - 1; in_loop = code.now.in_loop }) }
    ensures room { IfOk result (λ b. 0 < code.now.room) }
{
    let mut body = branch(alloc, code)?;
    match set(t, value, &mut body) {
        Ok(()) => Ok(body),
        Err(e) => {
            drop(body);
            Err(e)
        }
    }
}

/// A choice between two values of a variable, by a test.
pub fn either(
    alloc: Global,
    test: u32,
    t: u32,
    x: IntValue,
    y: IntValue,
    code: &mut Code,
) -> Result<(), AllocError>
    ensures rows { OnOk result (code.new.statements ≡ code.old.statements
        ++ stmt.IfElse (Atom.Int test) (set t x ∷ []) (set t y ∷ []) ∷ []) }
    ensures body { OnOk result (IsSameBody code.old code.new) }
{
    let first = match setting(alloc, code, t, x) {
        Ok(first) => first,
        Err(e) => {
            drop(y);
            return Err(e);
        }
    };
    match setting(alloc, code, t, y) {
        Ok(second) => code.push_if_else(alloc, Atom::Int(test), first, second),
        Err(e) => {
            drop(first);
            Err(e)
        }
    }
}

/// A fault where the atom is 0.
pub fn unless_fault(
    alloc: Global,
    a: Atom,
    kind: FaultKind,
    code: &mut Code,
) -> Result<(), AllocError>
    ensures rows { OnOk result (code.new.statements ≡ code.old.statements ++ unless_fault a kind ∷ []) }
    ensures body { OnOk result (IsSameBody code.old code.new) }
{
    let nothing = branch(alloc, code)?;
    let fault = faulting(alloc, code, kind)?;
    code.push_if_else(alloc, a, nothing, fault)
}

fn faulting(alloc: Global, code: &Code, kind: FaultKind) -> Result<Code, AllocError>
    ensures branch { IfOk result
        (λ b. b ≡ record {
          statements = stmt.Row (Row.Control (ControlRow.Fault kind)) ∷ [];
          room = code.now.room - 1;
          in_loop = code.now.in_loop;
        }) }
    ensures room { IfOk result (λ b. 0 < code.now.room) }
{
    let mut body = branch(alloc, code)?;
    match body.push_row(Row::Control(ControlRow::Fault(kind))) {
        Ok(()) => Ok(body),
        Err(e) => {
            drop(body);
            Err(e)
        }
    }
}

/// The reference to the block of an array.
pub fn reference_to(sort: Option<Sort>, array: u32) -> Reference
    ensures { result ≡ reference_to sort array }
{
    match sort {
        Some(Sort::Text) => Reference::Texts(array),
        _ => Reference::Ints(array),
    }
}

/// A variable takes what a cell holds.
pub fn cell_lines(
    alloc: Global,
    sort: Option<Sort>,
    t: u32,
    array: u32,
    cell: Atom,
    code: &mut Code,
) -> Result<(), AllocError>
    ensures rows { OnOk result (code.new.statements ≡ code.old.statements ++ cell_lines sort t array cell) }
    ensures body { OnOk result (IsSameBody code.old code.new) }
{
    match sort {
        Some(Sort::Text) => say(alloc, t, TextValue::Cell(array, cell), code),
        _ => set(t, IntValue::Cell(array, cell), code),
    }
}
