//! The lines of element trees.
ghost use Rattle.std.specs.Prelude.{◌≡◌, ◌++◌, ◌∷◌, [], suc, OnOk};
ghost use Rattle.nest_tree.specs.Sound.{sort_of_name};
ghost use Rattle.nest_tree.specs.Plain.{Trees, Read, Place, Asked};
ghost use Rattle.nest_emit.specs.Trees as lines;
ghost use Rattle.nest_sorts.specs.Seen.{operand_of, trees_of};
ghost use Rattle.element_atoms.specs.Added.{IsSameBody};
ghost use Rattle.nest_emit.specs.Numbers.{array_number};
ghost use Rattle.element_atoms.specs.Pairs.{first_atom, second_atom};
ghost use Rattle.element_atoms.specs.Positions.{scope_at, own_at, lines_at, atom_at, words_at};

use crate::choices::each_lines;
use crate::operators::{binary_lines, exact_lines, unary_lines};
use element_atoms::{
    Pair, Position, after, array_number, atom_of, cell_lines, extent_number, first_atom,
    lower_number, part_lines, place_atom, place_lines, reference_to, say, second_atom, set,
    words_of,
};
use f95_unit::UnaryOp;
use loop_tree::{Atom, Code, IntValue, TextValue};
use nest_sorts::sort_of_name;
use nest_tree::{Access, Exact, Name, Operand, Question, Tree};
use std::alloc::{AllocError, Global};

fn read_lines(
    alloc: Global,
    position: &Position,
    t: u32,
    access: &Access,
    code: &mut Code,
) -> Result<(), AllocError>
    ensures rows { OnOk result (code.new.statements ≡ code.old.statements
        ++ lines.tree_lines (scope_at position.now) position.now.nests t (Read access.now)) }
    ensures body { OnOk result (IsSameBody code.old code.new) }
{
    let own = position.scope.own;
    let array = array_number(own, access.name)?;
    let dimensions = access.dimensions.as_slice();
    place_lines(position, t, array, 0, dimensions, code)?;
    let cell = place_atom(position, t, dimensions);
    cell_lines(alloc, sort_of_name(own, access.name), t, array, cell, code)?;
    part_lines(alloc, own, t, access.portion, code)
}

fn number_lines(
    position: &Position,
    t: u32,
    access: &Access,
    code: &mut Code,
) -> Result<(), AllocError>
    ensures rows { OnOk result (code.new.statements ≡ code.old.statements
        ++ lines.tree_lines (scope_at position.now) position.now.nests t (Place access.now)) }
    ensures body { OnOk result (IsSameBody code.old code.new) }
{
    let array = array_number(position.scope.own, access.name)?;
    let dimensions = access.dimensions.as_slice();
    place_lines(position, t, array, 0, dimensions, code)?;
    set(t, IntValue::Atom(place_atom(position, t, dimensions)), code)
}

/// A variable takes what another one holds.
fn set_bound(t: u32, bound: u32, code: &mut Code) -> Result<(), AllocError>
    ensures rows { OnOk result (code.new.statements ≡ code.old.statements
        ++ lines.set t (IntValue.Atom (Atom.Int bound)) ∷ []) }
    ensures body { OnOk result (IsSameBody code.old code.new) }
{
    set(t, IntValue::Atom(Atom::Int(bound)), code)
}

fn asked_lines(
    position: &Position,
    t: u32,
    question: Question,
    name: Name,
    code: &mut Code,
) -> Result<(), AllocError>
    ensures rows { OnOk result (code.new.statements ≡ code.old.statements
        ++ lines.tree_lines (scope_at position.now) position.now.nests t (Asked question name)) }
    ensures body { OnOk result (IsSameBody code.old code.new) }
{
    let own = position.scope.own;
    let array = array_number(own, name)?;
    match question {
        Question::Lower(dim) => {
            let bound = lower_number(array, u32::from(dim.saturating_sub(1)))?;
            set_bound(t, bound, code)
        }
        Question::Extent(dim) => {
            let bound = extent_number(array, u32::from(dim.saturating_sub(1)))?;
            set_bound(t, bound, code)
        }
        Question::Size => {
            let block = reference_to(sort_of_name(own, name), array);
            set(t, IntValue::Size(block), code)
        }
        Question::Allocated => {
            let block = reference_to(sort_of_name(own, name), array);
            set(t, IntValue::Live(block), code)
        }
        Question::Upper(_) | Question::Length => Ok(()),
    }
}

/// The row behind the lines of the number of a cell.
fn cell_line(
    alloc: Global,
    position: &Position,
    t: u32,
    name: Name,
    number: &Tree,
    code: &mut Code,
) -> Result<(), AllocError>
    ensures rows { OnOk result (code.new.statements ≡ code.old.statements
        ++ lines.cell_lines (sort_of_name (own_at position.now) name) t (array_number (own_at position.now) name)
        (atom_at position.now t number.now)) }
    ensures body { OnOk result (IsSameBody code.old code.new) }
{
    let own = position.scope.own;
    let array = array_number(own, name)?;
    let cell = atom_of(position, t, number)?;
    cell_lines(alloc, sort_of_name(own, name), t, array, cell, code)
}

fn unary_behind(
    position: &Position,
    t: u32,
    op: UnaryOp,
    tree: &Tree,
    code: &mut Code,
) -> Result<(), AllocError>
    ensures rows { OnOk result (code.new.statements ≡ code.old.statements
        ++ lines.unary_lines op t (atom_at position.now t tree.now)) }
    ensures body { OnOk result (IsSameBody code.old code.new) }
{
    let a = atom_of(position, t, tree)?;
    unary_lines(op, t, a, code)
}

fn exact_behind(
    alloc: Global,
    position: &Position,
    op: Exact,
    pair: &Pair,
    code: &mut Code,
) -> Result<(), AllocError>
    ensures rows { OnOk result (code.new.statements ≡ code.old.statements
        ++ lines.exact_lines op pair.now.t (first_atom position.now pair.now) (second_atom position.now pair.now)) }
    ensures body { OnOk result (IsSameBody code.old code.new) }
{
    let a = first_atom(position, pair)?;
    let b = second_atom(position, pair)?;
    exact_lines(alloc, op, pair.t, a, b, code)
}

fn wrap_line(position: &Position, t: u32, tree: &Tree, code: &mut Code) -> Result<(), AllocError>
    ensures rows { OnOk result (code.new.statements ≡ code.old.statements
        ++ lines.set t (IntValue.Wrap (atom_at position.now t tree.now)) ∷ []) }
    ensures body { OnOk result (IsSameBody code.old code.new) }
{
    let a = atom_of(position, t, tree)?;
    set(t, IntValue::Wrap(a), code)
}

fn trim_line(
    alloc: Global,
    position: &Position,
    t: u32,
    tree: &Tree,
    code: &mut Code,
) -> Result<(), AllocError>
    ensures rows { OnOk result (code.new.statements ≡ code.old.statements
        ++ lines.say t (TextValue.Trim (words_at position.now t tree.now)) ∷ []) }
    ensures body { OnOk result (IsSameBody code.old code.new) }
{
    let w = words_of(alloc, position, t, tree)?;
    say(alloc, t, TextValue::Trim(w), code)
}

fn length_line(
    alloc: Global,
    position: &Position,
    t: u32,
    tree: &Tree,
    code: &mut Code,
) -> Result<(), AllocError>
    ensures rows { OnOk result (code.new.statements ≡ code.old.statements
        ++ lines.set t (IntValue.Length (words_at position.now t tree.now)) ∷ []) }
    ensures body { OnOk result (IsSameBody code.old code.new) }
{
    let w = words_of(alloc, position, t, tree)?;
    set(t, IntValue::Length(w), code)
}

/// Pushes the lines that leave the value of a tree in its atom. They use the variables from number t on.
#[cycle(tree_lines)]
pub fn tree_lines(
    alloc: Global,
    position: &Position,
    t: u32,
    tree: &Tree,
    code: &mut Code,
) -> Result<(), AllocError>
    ensures rows { OnOk result (code.new.statements ≡ code.old.statements ++ lines_at position.now t tree.now) }
    ensures body { OnOk result (IsSameBody code.old code.new) }
{
    match tree {
        Tree::Literal(_) => Ok(()),
        Tree::Number(_) => Ok(()),
        Tree::Constant(_) => Ok(()),
        Tree::Fixed(_) => Ok(()),
        Tree::Read(access) => read_lines(alloc, position, t, access, code),
        Tree::Cell(name, x) => {
            tree_lines(alloc, position, t, x.get(), code)?;
            cell_line(alloc, position, t, *name, x.get(), code)
        }
        Tree::Entry(..) => Ok(()),
        Tree::Turn(_) => Ok(()),
        Tree::Place(access) => number_lines(position, t, access, code),
        Tree::Asked(question, name) => asked_lines(position, t, *question, *name, code),
        Tree::Unary(op, x) => {
            tree_lines(alloc, position, t, x.get(), code)?;
            unary_behind(position, t, *op, x.get(), code)
        }
        Tree::Binary(op, x, y) => {
            tree_lines(alloc, position, t, x.get(), code)?;
            let u = after(t)?;
            tree_lines(alloc, position, u, y.get(), code)?;
            let pair = Pair {
                t,
                x: x.get(),
                y: y.get(),
            };
            binary_lines(alloc, position, *op, &pair, code)
        }
        Tree::Exact(op, x, y) => {
            tree_lines(alloc, position, t, x.get(), code)?;
            let u = after(t)?;
            tree_lines(alloc, position, u, y.get(), code)?;
            let pair = Pair {
                t,
                x: x.get(),
                y: y.get(),
            };
            exact_behind(alloc, position, *op, &pair, code)
        }
        Tree::Wrapped(x) => {
            tree_lines(alloc, position, t, x.get(), code)?;
            wrap_line(position, t, x.get(), code)
        }
        Tree::Elemental(which, operands) => {
            trees_lines(alloc, position, t, operands.as_slice(), code)?;
            each_lines(alloc, position, *which, t, operands.as_slice(), code)
        }
        Tree::Trim(x) => {
            tree_lines(alloc, position, t, x.get(), code)?;
            trim_line(alloc, position, t, x.get(), code)
        }
        Tree::Len(x) => {
            tree_lines(alloc, position, t, x.get(), code)?;
            length_line(alloc, position, t, x.get(), code)
        }
        Tree::Applied(..) => Ok(()),
    }
}

#[cycle(tree_lines)]
fn trees_lines(
    alloc: Global,
    position: &Position,
    t: u32,
    operands: &[Operand],
    code: &mut Code,
) -> Result<(), AllocError>
    ensures rows { OnOk result (code.new.statements ≡ code.old.statements
        ++ lines.trees_lines (scope_at position.now) position.now.nests t (trees_of operands.now)) }
    ensures body { OnOk result (IsSameBody code.old code.new) }
{
    let mut u = t;
    for operand in operands {
        operand_lines(alloc, position, u, operand, code)?;
        u = after(u)?;
    }
    Ok(())
}

#[cycle(tree_lines)]
fn operand_lines(
    alloc: Global,
    position: &Position,
    t: u32,
    operand: &Operand,
    code: &mut Code,
) -> Result<(), AllocError>
    ensures rows { OnOk result ((more : Trees) →
        code.new.statements ++ lines.trees_lines (scope_at position.now) position.now.nests (suc t) more
        ≡ code.old.statements ++ lines.trees_lines (scope_at position.now) position.now.nests t (operand_of operand.now more)) }
    ensures body { OnOk result (IsSameBody code.old code.new) }
{
    tree_lines(alloc, position, t, &operand.value, code)
}
