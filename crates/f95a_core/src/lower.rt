//! Typed units to LoopC: which pieces a unit's program is made of stands in `specs/Lowered.antt`.
ghost use Rattle.std.specs.Prelude.{◌≡◌, ◌++◌, ◌<◌, [], ◌∷◌, true, false, if◌then◌else◌, List, OnOk, IfOk};
ghost use Rattle.loop_writer.specs.Pieces.{IsNext, IsOutside};
ghost use Rattle.f95a_core.specs.Lowered as Lowered;
ghost use Rattle.f95a_core.specs.Lowered.{IsSameBody};

use a95_base::Memory;
use loop_tree::{Atom, BlockRow, Code, ControlRow, IntValue, Operator, RecordRow, Reference, Row};
use loop_writer::{Piece, Producer};
use rank_one::{Action, Addend, Array, Factor, Statement, Sum, Term, Unit};
use sqlite_items::Items;
use std::alloc::{AllocError, Global};

/// The program of a unit, piece by piece: the block of each array, and then the code of each statement.
#[derive(Drop)]
pub struct Lowering<'a> {
    begun: bool,
    arrays: &'a [Array],
    /// The number of the next array that has no block yet, and all such arrays.
    number: usize,
    undeclared: &'a [Array],
    statements: &'a [Statement],
}

impl<'a> Lowering<'a> {
    pub fn new(unit: &'a Unit) -> Lowering<'a>
        ensures { Lowered.left_of result ≡ Lowered.pieces_of unit.now }
    {
        Lowering {
            begun: false,
            arrays: unit.arrays.as_slice(),
            number: 0,
            undeclared: unit.arrays.as_slice(),
            statements: unit.statements.as_slice(),
        }
    }
}

impl Producer for Lowering<'_> {
    ghost left = { λ l. Lowered.left_of l };

    fn next(&mut self, alloc: Global) -> Result<Option<Piece>, Memory> {
        if !self.begun {
            self.begun = true;
            return Ok(Some(Piece::Begin(Items::new(alloc))));
        }
        if let Some((array, others)) = self.undeclared.split_first() {
            let code = array_code(alloc, self.number, array)?;
            self.number += 1;
            self.undeclared = others;
            return Ok(Some(Piece::Code(code)));
        }
        if let Some((statement, others)) = self.statements.split_first() {
            let code = statement_code(alloc, self.arrays, statement)?;
            self.statements = others;
            return Ok(Some(Piece::Code(code)));
        }
        Ok(None)
    }
}

/// The number of an array, or that behind all of them. No source has so many that it doesn't fit.
fn number_of(place: usize) -> Result<u32, AllocError>
    ensures { IfOk result (λ n. n ≡ place) }
{
    match u32::try_from(place) {
        Ok(number) => Ok(number),
        Err(_) => Err(AllocError),
    }
}

/// Makes the block of an array.
fn array_code(alloc: Global, place: usize, array: &Array) -> Result<Code, AllocError>
    ensures { IfOk result (λ code. code ≡ Lowered.body_with (Lowered.array_code place array.now)) }
{
    let number = number_of(place)?;
    let mut code = Code::new(alloc);
    put_line(&mut code, array.line)?;
    code.push_row(Row::Block(BlockRow::New(number, Atom::Number(i64::from(array.extent)))))?;
    Ok(code)
}

fn statement_code(
    alloc: Global,
    arrays: &[Array],
    statement: &Statement,
) -> Result<Code, AllocError>
    ensures { IfOk result
        (λ code. code ≡ Lowered.body_with (Lowered.action_code arrays.now statement.now.line statement.now.action)) }
{
    match &statement.action {
        Action::Assign { target, value } => {
            assignment(alloc, arrays, statement.line, *target, value)
        }
        Action::Print { arrays: places } => {
            printing(alloc, arrays, statement.line, places.as_slice())
        }
    }
}

fn assignment(
    alloc: Global,
    arrays: &[Array],
    line: u32,
    target: u32,
    sum: &Sum,
) -> Result<Code, AllocError>
    ensures { IfOk result (λ code. code ≡ Lowered.body_with (Lowered.assignment_code arrays.now line target sum.now)) }
{
    let extent = extent_of(arrays, target);
    let temporary = number_of(arrays.len())?;
    let mut code = Code::new(alloc);
    put_line(&mut code, line)?;
    code.push_row(Row::Block(BlockRow::Temp(temporary, Atom::Number(i64::from(extent)))))?;
    fill(alloc, &mut code, line, extent, temporary, sum)?;
    move_elements(alloc, &mut code, line, extent, temporary, target)?;
    code.push_row(Row::Block(BlockRow::Free(Reference::Ints(temporary))))?;
    Ok(code)
}

fn printing(alloc: Global, arrays: &[Array], line: u32, places: &[u32]) -> Result<Code, AllocError>
    ensures { IfOk result (λ code. code ≡ Lowered.body_with (Lowered.printing_code arrays.now line places.now)) }
{
    let mut code = Code::new(alloc);
    put_line(&mut code, line)?;
    for place in places {
        show(alloc, &mut code, line, extent_of(arrays, *place), *place)?;
    }
    code.push_row(Row::Record(RecordRow::Write))?;
    Ok(code)
}

fn extent_of(arrays: &[Array], place: u32) -> u32
    ensures { result ≡ Lowered.extent_of arrays.now place }
{
    match arrays.get(place as usize) {
        Some(array) => array.extent,
        None => 0,
    }
}

/// The loop that puts the right side into the temporary.
fn fill(
    alloc: Global,
    code: &mut Code,
    line: u32,
    extent: u32,
    temporary: u32,
    sum: &Sum,
) -> Result<(), AllocError>
    requires { 0 < code.old.room }
    ensures rows { OnOk result (code.new.statements ≡ code.old.statements ++ Lowered.fill line extent temporary sum.now ∷ []) }
    ensures body { OnOk result (IsSameBody code.old code.new) }
{
    let mut body = code.loop_body(alloc);
    put_line(&mut body, line)?;
    let value = value_code(&mut body, sum)?;
    body.push_row(Row::Block(BlockRow::StoreInt(temporary, Atom::Loop(1), value)))?;
    code.push_for_up(1, Atom::Number(i64::from(extent)), body)
}

/// The loop that puts the temporary into the variable.
fn move_elements(
    alloc: Global,
    code: &mut Code,
    line: u32,
    extent: u32,
    temporary: u32,
    target: u32,
) -> Result<(), AllocError>
    requires { 0 < code.old.room }
    ensures rows { OnOk result (code.new.statements ≡ code.old.statements ++ Lowered.move line extent temporary target ∷ []) }
    ensures body { OnOk result (IsSameBody code.old code.new) }
{
    let mut body = code.loop_body(alloc);
    put_line(&mut body, line)?;
    set_row(&mut body, 0, IntValue::Cell(temporary, Atom::Loop(1)))?;
    body.push_row(Row::Block(BlockRow::StoreInt(target, Atom::Loop(1), Atom::Int(0))))?;
    code.push_for_up(1, Atom::Number(i64::from(extent)), body)
}

/// The loop that adds the elements of an array to the record.
fn show(
    alloc: Global,
    code: &mut Code,
    line: u32,
    extent: u32,
    place: u32,
) -> Result<(), AllocError>
    requires { 0 < code.old.room }
    ensures rows { OnOk result (code.new.statements ≡ code.old.statements ++ Lowered.show line extent place ∷ []) }
    ensures body { OnOk result (IsSameBody code.old code.new) }
{
    let mut body = code.loop_body(alloc);
    put_line(&mut body, line)?;
    set_row(&mut body, 0, IntValue::Cell(place, Atom::Loop(1)))?;
    body.push_row(Row::Record(RecordRow::PutInt(Atom::Int(0))))?;
    code.push_for_up(1, Atom::Number(i64::from(extent)), body)
}

/// What a factor is, once it is loaded into a variable.
fn factor_atom(number: u32, factor: Factor) -> Atom
    ensures { result ≡ Lowered.factor_atom number factor }
{
    match factor {
        Factor::Number(value) => Atom::Number(i64::from(value)),
        Factor::Array(_) => Atom::Int(number),
    }
}

fn load(code: &mut Code, number: u32, factor: Factor) -> Result<(), AllocError>
    ensures rows { OnOk result (code.new.statements ≡ code.old.statements ++ Lowered.load number factor) }
    ensures body { OnOk result (IsSameBody code.old code.new) }
{
    match factor {
        Factor::Number(_) => Ok(()),
        Factor::Array(place) => set_row(code, number, IntValue::Cell(place, Atom::Loop(1))),
    }
}

fn set_row(code: &mut Code, number: u32, value: IntValue) -> Result<(), AllocError>
    ensures rows { OnOk result (code.new.statements ≡ code.old.statements ++ Lowered.set_row number value ∷ []) }
    ensures body { OnOk result (IsSameBody code.old code.new) }
{
    code.push_row(Row::Int(number, value))
}

fn put_line(code: &mut Code, line: u32) -> Result<(), AllocError>
    ensures rows { OnOk result (code.new.statements ≡ code.old.statements ++ Lowered.at_line line ∷ []) }
    ensures body { OnOk result (IsSameBody code.old code.new) }
{
    code.push_row(Row::Control(ControlRow::At(line)))
}

/// An atom times one more factor.
fn times(code: &mut Code, number: u32, left: Atom, factor: Factor) -> Result<(), AllocError>
    ensures rows { OnOk result (code.new.statements ≡ code.old.statements ++ Lowered.times number left factor) }
    ensures body { OnOk result (IsSameBody code.old code.new) }
{
    load(code, 2, factor)?;
    set_row(
        code,
        number,
        IntValue::Operation(left, Operator::Multiply, factor_atom(2, factor)),
    )
}

/// Multiplies a term's factors in a variable, and answers the atom that the term then is.
fn term_code(code: &mut Code, number: u32, term: &Term) -> Result<Atom, AllocError>
    ensures rows { OnOk result (code.new.statements ≡ code.old.statements ++ Lowered.term_code number term.now) }
    ensures body { OnOk result (IsSameBody code.old code.new) }
    ensures atom { IfOk result (λ a. a ≡ Lowered.term_atom number term.now) }
{
    load(code, number, term.first)?;
    let mut left = factor_atom(number, term.first);
    for factor in term.rest.as_slice() {
        times(code, number, left, *factor)?;
        left = Atom::Int(number);
    }
    Ok(left)
}

fn sign(minus: bool) -> Operator
    ensures { result ≡ Lowered.sign minus }
{
    if minus {
        Operator::Subtract
    } else {
        Operator::Add
    }
}

/// An atom, and one more term.
fn plus(code: &mut Code, left: Atom, addend: &Addend) -> Result<(), AllocError>
    ensures rows { OnOk result (code.new.statements ≡ code.old.statements ++ Lowered.plus left addend.now) }
    ensures body { OnOk result (IsSameBody code.old code.new) }
{
    let right = term_code(code, 1, &addend.term)?;
    set_row(
        code,
        0,
        IntValue::Operation(left, sign(addend.minus), right),
    )
}

/// Adds up the terms in 64 bits, and answers the atom that the sum then is.
fn sum_code(code: &mut Code, sum: &Sum) -> Result<Atom, AllocError>
    ensures rows { OnOk result (code.new.statements ≡ code.old.statements ++ Lowered.sum_code sum.now) }
    ensures body { OnOk result (IsSameBody code.old code.new) }
    ensures atom { IfOk result (λ a. a ≡ Lowered.sum_atom sum.now) }
{
    let mut left = term_code(code, 0, &sum.first)?;
    for addend in sum.rest.as_slice() {
        plus(code, left, addend)?;
        left = Atom::Int(0);
    }
    Ok(left)
}

fn is_factor(sum: &Sum) -> bool
    ensures { result ≡ Lowered.is_factor sum.now }
{
    match (sum.first.rest.as_slice(), sum.rest.as_slice()) {
        ([], []) => true,
        _ => false,
    }
}

/// The whole right side, as an INTEGER.
fn value_code(code: &mut Code, sum: &Sum) -> Result<Atom, AllocError>
    ensures rows { OnOk result (code.new.statements ≡ code.old.statements ++ Lowered.value_code sum.now) }
    ensures body { OnOk result (IsSameBody code.old code.new) }
    ensures atom { IfOk result (λ a. a ≡ Lowered.value_atom sum.now) }
{
    let atom = sum_code(code, sum)?;
    if is_factor(sum) {
        return Ok(atom);
    }
    set_row(code, 0, IntValue::Wrap(atom))?;
    Ok(Atom::Int(0))
}
