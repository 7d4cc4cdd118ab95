//! The lines of operators.
ghost use Rattle.std.specs.Prelude.{◌≡◌, ◌++◌, ◌∷◌, [], ◌-◌, ◌<◌, suc, OnOk, IfOk};
ghost use Rattle.nest_tree.specs.Sound.{some_serves, sort_of};
ghost use Rattle.nest_tree.specs.View.{tree_of};
ghost use Rattle.nest_tree.specs.declared.unit.Sort.TheVariants.{Text};
ghost use Rattle.loop_tree.specs.declared.row.TextValue.TheVariants as words;
ghost use Rattle.a95_base.specs.declared.fault.FaultKind.TheVariants as fault;
ghost use Rattle.nest_emit.specs.Trees.{set, say, compute, computed, unless_fault, unary_lines, compare_line, compared_lines};
ghost use Rattle.nest_emit.specs.Trees.{binary_lines, inverse_lines, power_lines, exact_operator, chosen_lines, exact_lines};
ghost use Rattle.element_atoms.specs.Added.{IsSameBody};
ghost use Rattle.element_atoms.specs.Pairs.{first_atom, second_atom, first_words, second_words};
ghost use Rattle.element_atoms.specs.Positions.{scope_at};

use a95_base::FaultKind;
use element_atoms::{
    Pair, Position, after, are_texts, branch, compute, computed, either, first_atom, first_words,
    say, second_atom, second_words, set, setting, unless_fault,
};
use f95_unit::{BinaryOp, UnaryOp};
use loop_tree::{Atom, Code, IntValue, Operator, TextValue};
use nest_tree::Exact;
use std::alloc::{AllocError, Global};

pub fn unary_lines(op: UnaryOp, t: u32, a: Atom, code: &mut Code) -> Result<(), AllocError>
    ensures rows { OnOk result (code.new.statements ≡ code.old.statements ++ unary_lines op t a) }
    ensures body { OnOk result (IsSameBody code.old code.new) }
{
    match op {
        UnaryOp::Plus => set(t, IntValue::Atom(a), code),
        UnaryOp::Minus => computed(t, Atom::Number(0), Operator::Subtract, a, code),
        UnaryOp::Not => compute(t, a, Operator::Equal, Atom::Number(0), code),
    }
}

/// 1 where two integers compare so, else 0.
fn compare_line(op: BinaryOp, t: u32, a: Atom, b: Atom, code: &mut Code) -> Result<(), AllocError>
    ensures rows { OnOk result (code.new.statements ≡ code.old.statements ++ compare_line op t a b ∷ []) }
    ensures body { OnOk result (IsSameBody code.old code.new) }
{
    match op {
        BinaryOp::Equal => compute(t, a, Operator::Equal, b, code),
        BinaryOp::NotEqual => compute(t, a, Operator::NotEqual, b, code),
        BinaryOp::Less => compute(t, a, Operator::Less, b, code),
        BinaryOp::LessEqual => compute(t, a, Operator::LessEqual, b, code),
        BinaryOp::Greater => compute(t, b, Operator::Less, a, code),
        _ => compute(t, b, Operator::LessEqual, a, code),
    }
}

/// Pushes the order of two texts.
fn order_line(
    alloc: Global,
    position: &Position,
    pair: &Pair,
    code: &mut Code,
) -> Result<(), AllocError>
    ensures rows { OnOk result (code.new.statements ≡ code.old.statements ++ set pair.now.t
        (IntValue.Compare (first_words position.now pair.now) (second_words position.now pair.now)) ∷ []) }
    ensures body { OnOk result (IsSameBody code.old code.new) }
{
    let v = first_words(alloc, position, pair)?;
    match second_words(alloc, position, pair) {
        Ok(w) => set(pair.t, IntValue::Compare(v, w), code),
        Err(e) => {
            drop(v);
            Err(e)
        }
    }
}

fn integers_compared(
    position: &Position,
    op: BinaryOp,
    pair: &Pair,
    code: &mut Code,
) -> Result<(), AllocError>
    ensures rows { OnOk result (code.new.statements ≡ code.old.statements
        ++ compare_line op pair.now.t (first_atom position.now pair.now) (second_atom position.now pair.now) ∷ []) }
    ensures body { OnOk result (IsSameBody code.old code.new) }
{
    let a = first_atom(position, pair)?;
    let b = second_atom(position, pair)?;
    compare_line(op, pair.t, a, b, code)
}

fn compared_lines(
    alloc: Global,
    position: &Position,
    op: BinaryOp,
    pair: &Pair,
    code: &mut Code,
) -> Result<(), AllocError>
    ensures rows { OnOk result (code.new.statements ≡ code.old.statements
        ++ compared_lines (some_serves (sort_of (scope_at position.now) (tree_of pair.now.x.now)) Text) op pair.now.t
        (first_atom position.now pair.now) (second_atom position.now pair.now)
        (first_words position.now pair.now) (second_words position.now pair.now)) }
    ensures body { OnOk result (IsSameBody code.old code.new) }
{
    if are_texts(alloc, position, pair)? {
        order_line(alloc, position, pair, code)?;
        compare_line(op, pair.t, Atom::Int(pair.t), Atom::Number(0), code)
    } else {
        integers_compared(position, op, pair, code)
    }
}

/// One row, of two integers.
fn operation_line(
    position: &Position,
    op: Operator,
    pair: &Pair,
    code: &mut Code,
) -> Result<(), AllocError>
    ensures rows { OnOk result (code.new.statements ≡ code.old.statements
        ++ compute pair.now.t (first_atom position.now pair.now) op (second_atom position.now pair.now) ∷ []) }
    ensures body { OnOk result (IsSameBody code.old code.new) }
{
    let a = first_atom(position, pair)?;
    let b = second_atom(position, pair)?;
    compute(pair.t, a, op, b, code)
}

/// The same, in 32 bits.
fn wrapped_lines(
    position: &Position,
    op: Operator,
    pair: &Pair,
    code: &mut Code,
) -> Result<(), AllocError>
    ensures rows { OnOk result (code.new.statements ≡ code.old.statements
        ++ computed pair.now.t (first_atom position.now pair.now) op (second_atom position.now pair.now)) }
    ensures body { OnOk result (IsSameBody code.old code.new) }
{
    let a = first_atom(position, pair)?;
    let b = second_atom(position, pair)?;
    computed(pair.t, a, op, b, code)
}

fn quotient_lines(
    alloc: Global,
    position: &Position,
    pair: &Pair,
    code: &mut Code,
) -> Result<(), AllocError>
    ensures rows { OnOk result (code.new.statements ≡ code.old.statements
        ++ unless_fault (second_atom position.now pair.now) fault.ZeroDivide
        ∷ computed pair.now.t (first_atom position.now pair.now) Operator.Divide (second_atom position.now pair.now)) }
    ensures body { OnOk result (IsSameBody code.old code.new) }
{
    let b = second_atom(position, pair)?;
    unless_fault(alloc, b, FaultKind::ZeroDivide, code)?;
    wrapped_lines(position, Operator::Divide, pair, code)
}

fn join_line(
    alloc: Global,
    position: &Position,
    pair: &Pair,
    code: &mut Code,
) -> Result<(), AllocError>
    ensures rows { OnOk result (code.new.statements ≡ code.old.statements
        ++ say pair.now.t (words.Join (first_words position.now pair.now) (second_words position.now pair.now)) ∷ []) }
    ensures body { OnOk result (IsSameBody code.old code.new) }
{
    let v = first_words(alloc, position, pair)?;
    match second_words(alloc, position, pair) {
        Ok(w) => say(alloc, pair.t, TextValue::Join(v, w), code),
        Err(e) => {
            drop(v);
            Err(e)
        }
    }
}

// ---- powers

/// The lines of a power by a negative exponent.
fn inverse_lines(
    alloc: Global,
    t: u32,
    test: u32,
    a: Atom,
    b: Atom,
    code: &mut Code,
) -> Result<(), AllocError>
    ensures rows { OnOk result (code.new.statements ≡ code.old.statements ++ inverse_lines t test a b) }
    ensures body { OnOk result (IsSameBody code.old code.new) }
{
    unless_fault(alloc, a, FaultKind::ZeroDivide, code)?;
    compute(test, b, Operator::Remainder, Atom::Number(2), code)?;
    either(
        alloc,
        test,
        test,
        IntValue::Atom(a),
        IntValue::Operation(a, Operator::Multiply, a),
        code,
    )?;
    computed(t, Atom::Number(1), Operator::Divide, Atom::Int(test), code)
}

/// The same, in a branch.
fn inverse_branch(
    alloc: Global,
    t: u32,
    test: u32,
    a: Atom,
    b: Atom,
    code: &Code,
) -> Result<Code, AllocError>
    ensures branch { IfOk result (λ c. c ≡ record {
      statements = inverse_lines t test a b;
      room = code.now.room - 1;
      in_loop = code.now.in_loop;
    }) }
    ensures room { IfOk result (λ c. 0 < code.now.room) }
{
    let mut body = branch(alloc, code)?;
    match inverse_lines(alloc, t, test, a, b, &mut body) {
        Ok(()) => Ok(body),
        Err(e) => {
            drop(body);
            Err(e)
        }
    }
}

fn power_lines(
    alloc: Global,
    t: u32,
    test: u32,
    a: Atom,
    b: Atom,
    code: &mut Code,
) -> Result<(), AllocError>
    ensures rows { OnOk result (code.new.statements ≡ code.old.statements ++ power_lines t test a b) }
    ensures body { OnOk result (IsSameBody code.old code.new) }
{
    compute(test, b, Operator::Less, Atom::Number(0), code)?;
    let inverse = inverse_branch(alloc, t, test, a, b, code)?;
    match setting(alloc, code, t, IntValue::Power(a, b)) {
        Ok(power) => code.push_if_else(alloc, Atom::Int(test), inverse, power),
        Err(e) => {
            drop(inverse);
            Err(e)
        }
    }
}

fn power_of(
    alloc: Global,
    position: &Position,
    pair: &Pair,
    code: &mut Code,
) -> Result<(), AllocError>
    ensures rows { OnOk result (code.new.statements ≡ code.old.statements ++ power_lines pair.now.t
        (suc (suc pair.now.t)) (first_atom position.now pair.now) (second_atom position.now pair.now)) }
    ensures body { OnOk result (IsSameBody code.old code.new) }
{
    let a = first_atom(position, pair)?;
    let b = second_atom(position, pair)?;
    let u = after(pair.t)?;
    let test = after(u)?;
    power_lines(alloc, pair.t, test, a, b, code)
}

/// The lines behind those of both trees.
pub fn binary_lines(
    alloc: Global,
    position: &Position,
    op: BinaryOp,
    pair: &Pair,
    code: &mut Code,
) -> Result<(), AllocError>
    ensures rows { OnOk result (code.new.statements ≡ code.old.statements
        ++ binary_lines (some_serves (sort_of (scope_at position.now) (tree_of pair.now.x.now)) Text) op pair.now.t
        (first_atom position.now pair.now) (second_atom position.now pair.now)
        (first_words position.now pair.now) (second_words position.now pair.now)) }
    ensures body { OnOk result (IsSameBody code.old code.new) }
{
    match op {
        BinaryOp::Power => power_of(alloc, position, pair, code),
        BinaryOp::Multiply => wrapped_lines(position, Operator::Multiply, pair, code),
        BinaryOp::Divide => quotient_lines(alloc, position, pair, code),
        BinaryOp::Add => wrapped_lines(position, Operator::Add, pair, code),
        BinaryOp::Subtract => wrapped_lines(position, Operator::Subtract, pair, code),
        BinaryOp::Concat => join_line(alloc, position, pair, code),
        BinaryOp::And => operation_line(position, Operator::And, pair, code),
        BinaryOp::Or => operation_line(position, Operator::Or, pair, code),
        BinaryOp::Equivalent => operation_line(position, Operator::Equal, pair, code),
        BinaryOp::NotEquivalent => operation_line(position, Operator::NotEqual, pair, code),
        _ => compared_lines(alloc, position, op, pair, code),
    }
}

// ---- exact integers

fn exact_operator(op: Exact) -> Operator
    ensures { result ≡ exact_operator op }
{
    match op {
        Exact::Minus => Operator::Subtract,
        Exact::Times => Operator::Multiply,
        Exact::Over => Operator::Divide,
        Exact::Below => Operator::Less,
        Exact::AtMost => Operator::LessEqual,
        Exact::Same => Operator::Equal,
        _ => Operator::Add,
    }
}

/// The first of two values where `b` is less than `a`, by a test in a variable further on.
fn chosen_lines(
    alloc: Global,
    t: u32,
    compared: (Atom, Atom),
    chosen: (Atom, Atom),
    code: &mut Code,
) -> Result<(), AllocError>
    ensures rows { OnOk result (code.new.statements ≡ code.old.statements
        ++ chosen_lines t compared.0 compared.1 chosen.0 chosen.1) }
    ensures body { OnOk result (IsSameBody code.old code.new) }
{
    let u = after(t)?;
    let test = after(u)?;
    compute(test, compared.1, Operator::Less, compared.0, code)?;
    either(
        alloc,
        test,
        t,
        IntValue::Atom(chosen.0),
        IntValue::Atom(chosen.1),
        code,
    )
}

pub fn exact_lines(
    alloc: Global,
    op: Exact,
    t: u32,
    a: Atom,
    b: Atom,
    code: &mut Code,
) -> Result<(), AllocError>
    ensures rows { OnOk result (code.new.statements ≡ code.old.statements ++ exact_lines op t a b) }
    ensures body { OnOk result (IsSameBody code.old code.new) }
{
    match op {
        Exact::Most => chosen_lines(alloc, t, (a, b), (a, b), code),
        Exact::Least => chosen_lines(alloc, t, (a, b), (b, a), code),
        _ => compute(t, a, exact_operator(op), b, code),
    }
}
