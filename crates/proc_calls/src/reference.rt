//! What one reference, or one statement that does input, output or STOP, breaks.
ghost use Rattle.std.specs.Prelude.{◌≡◌, IfOk, Some};
ghost use Rattle.f95_unit.specs.View.{call_of};
ghost use Rattle.f95_unit.specs.Plain.{call};
ghost use Rattle.proc_calls.specs.View.{arguments_of};
ghost use Rattle.proc_calls.specs.Acts as acts;
ghost use Rattle.proc_calls.specs.Rules as rules;
ghost use Rattle.proc_calls.specs.Found.{told, told_reference, told_of_none};

use crate::actuals::{has_array_actual, has_other_length, has_wrong_out, is_mismatch};
use crate::caller::Caller;
use crate::first::noted;
use crate::interface::Interface;
use a95_base::{Break, Rule};
use f95_unit::{Argument, Call};
use std::alloc::{AllocError, Global};

fn is_itself(c: &Caller, number: usize) -> bool
    ensures { result ≡ rules.is_itself c.now number }
{
    match c.number {
        None => false,
        Some(own) => !c.recursive && own == number,
    }
}

fn is_impure_call(c: &Caller, i: &Interface) -> bool
    ensures { result ≡ rules.is_impure_call c.now (Some i.now) }
{
    c.pure && !i.pure
}

fn of_no_procedure(c: &Caller, line: u32, number: usize, found: Option<Break>) -> Option<Break>
    ensures { result ≡ told_of_none c.now found line number }
{
    let found = noted(found, true, line, Rule::WRONG_ARGUMENTS);
    noted(found, is_itself(c, number), line, Rule::NOT_RECURSIVE)
}

fn of_procedure(
    alloc: Global,
    c: &Caller,
    i: &Interface,
    line: u32,
    dos: &[u32],
    as_function: bool,
    number: usize,
    es: &[Argument],
    found: Option<Break>,
) -> Result<Option<Break>, AllocError>
    ensures { IfOk result (λ r. r ≡ told_reference c.now (Some i.now) found
        (acts.reference_to line dos.now as_function (call number (arguments_of es.now)))) }
{
    let is_mismatch = is_mismatch(alloc, i, as_function, es)?;
    let found = noted(found, is_mismatch, line, Rule::WRONG_ARGUMENTS);
    let found = noted(
        found,
        has_wrong_out(c.roles.as_slice(), dos, i, es),
        line,
        Rule::WRONG_OUT_ARGUMENT,
    );
    let found = noted(found, is_impure_call(c, i), line, Rule::NOT_PURE);
    let found = noted(found, has_array_actual(i, es), line, Rule::NOT_ELEMENTAL);
    let found = noted(found, is_itself(c, number), line, Rule::NOT_RECURSIVE);
    Ok(noted(found, has_other_length(i, es), line, Rule::LENGTHS_DIFFER))
}

fn at_number(
    alloc: Global,
    c: &Caller,
    line: u32,
    dos: &[u32],
    as_function: bool,
    number: usize,
    es: &[Argument],
    found: Option<Break>,
) -> Result<Option<Break>, AllocError>
    ensures { IfOk result (λ r. r ≡ told c.now found
        (acts.reference line dos.now as_function (call number (arguments_of es.now)))) }
{
    match c.interfaces.get(number) {
        None => Ok(of_no_procedure(c, line, number, found)),
        Some(i) => of_procedure(alloc, c, i, line, dos, as_function, number, es, found),
    }
}

/// The first break with those of the reference alone, without those in its arguments.
pub fn at_reference(
    alloc: Global,
    c: &Caller,
    line: u32,
    dos: &[u32],
    as_function: bool,
    called: &Call,
    found: Option<Break>,
) -> Result<Option<Break>, AllocError>
    ensures { IfOk result (λ r. r ≡ told c.now found (acts.reference line dos.now as_function (call_of called.now))) }
{
    let number = called.procedure as usize;
    at_number(
        alloc,
        c,
        line,
        dos,
        as_function,
        number,
        called.arguments.as_slice(),
        found,
    )
}

/// The first break with that of a statement that does input, output or STOP.
#[tactic(auto, unfolding(crate::specs::Found::told))]
pub fn at_transfer(c: &Caller, line: u32, found: Option<Break>) -> Option<Break>
    ensures { result ≡ told c.now found (acts.Transfers line) }
{
    noted(found, c.pure, line, Rule::NOT_PURE)
}
