//! The lines of elemental functions of one or two arguments.
ghost use Rattle.std.specs.Prelude.{◌≡◌, ◌++◌, ◌∷◌, [], ◌-◌, ◌<◌, pos, OnOk, IfOk};
ghost use Rattle.nest_emit.specs.Trees as lines;
ghost use Rattle.element_atoms.specs.Added.{IsSameBody};

use a95_base::FaultKind;
use element_atoms::{after, branch, compute, computed, either, say, set, setting, unless_fault};
use f95_unit::Elemental;
use loop_tree::{Atom, Code, IntValue, Operator, TextAtom, TextValue};
use std::alloc::{AllocError, Global};

/// The absolute value.
fn absolute_lines(alloc: Global, t: u32, a: Atom, code: &mut Code) -> Result<(), AllocError>
    ensures rows { OnOk result (code.new.statements ≡ code.old.statements ++ lines.absolute_lines t a) }
    ensures body { OnOk result (IsSameBody code.old code.new) }
{
    compute(t, a, Operator::Less, Atom::Number(0), code)?;
    either(
        alloc,
        t,
        t,
        IntValue::Operation(Atom::Number(0), Operator::Subtract, a),
        IntValue::Atom(a),
        code,
    )
}

/// What is computed in a variable, in 32 bits in another one.
fn wrap_line(t: u32, from: u32, code: &mut Code) -> Result<(), AllocError>
    ensures rows { OnOk result (code.new.statements ≡ code.old.statements
        ++ lines.set t (IntValue.Wrap (Atom.Int from)) ∷ []) }
    ensures body { OnOk result (IsSameBody code.old code.new) }
{
    set(t, IntValue::Wrap(Atom::Int(from)), code)
}

fn modulo_lines(
    alloc: Global,
    t: u32,
    test: u32,
    a: Atom,
    b: Atom,
    code: &mut Code,
) -> Result<(), AllocError>
    ensures rows { OnOk result (code.new.statements ≡ code.old.statements
        ++ lines.elemental_lines Elemental.Modulo t test a b (TextAtom.Variable 0)) }
    ensures body { OnOk result (IsSameBody code.old code.new) }
{
    unless_fault(alloc, b, FaultKind::ZeroDivide, code)?;
    compute(test, a, Operator::Remainder, b, code)?;
    compute(test, Atom::Int(test), Operator::Add, b, code)?;
    compute(t, Atom::Int(test), Operator::Remainder, b, code)
}

/// A branch that negates a variable, in 32 bits in another one.
fn negated(alloc: Global, t: u32, from: u32, code: &Code) -> Result<Code, AllocError>
    ensures branch { IfOk result (λ c. c ≡ record {
      statements = lines.computed t (Atom.Number (pos 0)) Operator.Subtract (Atom.Int from);
      room = code.now.room - 1;
      in_loop = code.now.in_loop;
    }) }
    ensures room { IfOk result (λ c. 0 < code.now.room) }
{
    let mut body = branch(alloc, code)?;
    match computed(
        t,
        Atom::Number(0),
        Operator::Subtract,
        Atom::Int(from),
        &mut body,
    ) {
        Ok(()) => Ok(body),
        Err(e) => {
            drop(body);
            Err(e)
        }
    }
}

fn sign_lines(
    alloc: Global,
    t: u32,
    test: u32,
    a: Atom,
    b: Atom,
    code: &mut Code,
) -> Result<(), AllocError>
    ensures rows { OnOk result (code.new.statements ≡ code.old.statements
        ++ lines.elemental_lines Elemental.Sign t test a b (TextAtom.Variable 0)) }
    ensures body { OnOk result (IsSameBody code.old code.new) }
{
    let minus = after(test)?;
    absolute_lines(alloc, test, a, code)?;
    compute(minus, b, Operator::Less, Atom::Number(0), code)?;
    let below = negated(alloc, t, test, code)?;
    match setting(alloc, code, t, IntValue::Wrap(Atom::Int(test))) {
        Ok(above) => code.push_if_else(alloc, Atom::Int(minus), below, above),
        Err(e) => {
            drop(below);
            Err(e)
        }
    }
}

/// The text of one byte, where there is such a byte.
fn byte_lines(alloc: Global, t: u32, test: u32, a: Atom, code: &mut Code) -> Result<(), AllocError>
    ensures rows { OnOk result (code.new.statements ≡ code.old.statements
        ++ lines.elemental_lines Elemental.Char t test a a (TextAtom.Variable 0)) }
    ensures body { OnOk result (IsSameBody code.old code.new) }
{
    compute(test, Atom::Number(0), Operator::LessEqual, a, code)?;
    unless_fault(alloc, Atom::Int(test), FaultKind::CharRange, code)?;
    compute(test, a, Operator::Less, Atom::Number(256), code)?;
    unless_fault(alloc, Atom::Int(test), FaultKind::CharRange, code)?;
    say(alloc, t, TextValue::Char(a), code)
}

fn remainder_lines(
    alloc: Global,
    t: u32,
    a: Atom,
    b: Atom,
    code: &mut Code,
) -> Result<(), AllocError>
    ensures rows { OnOk result (code.new.statements ≡ code.old.statements
        ++ lines.elemental_lines Elemental.Mod t t a b (TextAtom.Variable 0)) }
    ensures body { OnOk result (IsSameBody code.old code.new) }
{
    unless_fault(alloc, b, FaultKind::ZeroDivide, code)?;
    compute(t, a, Operator::Remainder, b, code)
}

fn xor_lines(t: u32, a: Atom, b: Atom, code: &mut Code) -> Result<(), AllocError>
    ensures rows { OnOk result (code.new.statements ≡ code.old.statements
        ++ lines.elemental_lines Elemental.Ieor t t a b (TextAtom.Variable 0)) }
    ensures body { OnOk result (IsSameBody code.old code.new) }
{
    set(t, IntValue::Xor(a, b), code)?;
    wrap_line(t, t, code)
}

fn absolute_of(alloc: Global, t: u32, test: u32, a: Atom, code: &mut Code) -> Result<(), AllocError>
    ensures rows { OnOk result (code.new.statements ≡ code.old.statements
        ++ lines.elemental_lines Elemental.Abs t test a a (TextAtom.Variable 0)) }
    ensures body { OnOk result (IsSameBody code.old code.new) }
{
    absolute_lines(alloc, test, a, code)?;
    wrap_line(t, test, code)
}

fn left_line(alloc: Global, t: u32, v: &TextAtom, code: &mut Code) -> Result<(), AllocError>
    ensures rows { OnOk result (code.new.statements ≡ code.old.statements ++ lines.say t (TextValue.Left v.now) ∷ []) }
    ensures body { OnOk result (IsSameBody code.old code.new) }
{
    let v = v.copy(alloc)?;
    say(alloc, t, TextValue::Left(v), code)
}

fn right_line(alloc: Global, t: u32, v: &TextAtom, code: &mut Code) -> Result<(), AllocError>
    ensures rows { OnOk result (code.new.statements ≡ code.old.statements ++ lines.say t (TextValue.Right v.now) ∷ []) }
    ensures body { OnOk result (IsSameBody code.old code.new) }
{
    let v = v.copy(alloc)?;
    say(alloc, t, TextValue::Right(v), code)
}

/// The lines of a function of its first two arguments, or of its first as a text. The test is a variable behind all arguments.
pub fn elemental_lines(
    alloc: Global,
    which: Elemental,
    numbers: (u32, u32),
    a: Atom,
    b: Atom,
    v: &TextAtom,
    code: &mut Code,
) -> Result<(), AllocError>
    ensures rows { OnOk result (code.new.statements ≡ code.old.statements
        ++ lines.elemental_lines which numbers.0 numbers.1 a b v.now) }
    ensures body { OnOk result (IsSameBody code.old code.new) }
{
    let (t, test) = numbers;
    match which {
        Elemental::Abs => absolute_of(alloc, t, test, a, code),
        Elemental::Mod => remainder_lines(alloc, t, a, b, code),
        Elemental::Modulo => modulo_lines(alloc, t, test, a, b, code),
        Elemental::Sign => sign_lines(alloc, t, test, a, b, code),
        Elemental::Iand => computed(t, a, Operator::And, b, code),
        Elemental::Ior => computed(t, a, Operator::Or, b, code),
        Elemental::Ieor => xor_lines(t, a, b, code),
        Elemental::Char => byte_lines(alloc, t, test, a, code),
        Elemental::Adjustl => left_line(alloc, t, v, code),
        Elemental::Adjustr => right_line(alloc, t, v, code),
        _ => Ok(()),
    }
}
