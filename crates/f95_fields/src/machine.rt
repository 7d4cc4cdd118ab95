//! The machine that reads fields of expressions, one terminal a step.

ghost use Rattle.std.specs.Prelude.{◌≡◌, ◌∷◌, [], true, false, IfOk, MatchOption, option_and_then, option_map};
ghost use Rattle.f95_expressions.specs.Machine.{field_of, coloned, assigned, asked, held, reduce, can_make, made_of, operated};
ghost use Rattle.f95_expressions.specs.Machine.{signed, fresh, parted, closed, with_stage, with_left, holds, did, made_plain, made};
ghost use Rattle.f95_expressions.specs.Machine.{alone, is_closed_by, separated, separated_in, first_mark, first_operator};
ghost use Rattle.f95_expressions.specs.Machine.{first_step, opened, ended_by, next_mark, next_step, did_step, step, row_of};
ghost use Rattle.f95_expressions.specs.Machine.{row_found, ended, ending_of, is_row, row_ending};

use crate::levels::{left_of, level, right_of, sign_level, under_sign};
use a95_base::{SharedBytes, Stack};
use f95_expressions::{
    Bracket, Ending, Field, Held, Machine, Pending, Stage, assigned, bracketed, coloned, field_of,
    implied, items_of, made_part, pushed, values_of,
};
use f95_tree::{
    Expression, Item, Literal, Operator, Punctuation, Reference, Sign, Terminal, Value,
};
use sqlite_items::{Boxed, Items};
use std::alloc::{AllocError, Global};

/// The least level that the operand on top must have.
fn asked(stack: &Stack<Pending>) -> u8
    ensures { result ≡ asked stack.now }
{
    match stack.top() {
        None => 0,
        Some(Pending::Left(_, operator)) => right_of(*operator),
        Some(Pending::Before(sign)) => under_sign(*sign),
        Some(Pending::Open(..)) => 0,
    }
}

/// Whether what waits on top has at least this level.
fn can_make(least: u8, stack: &Stack<Pending>) -> bool
    ensures { result ≡ can_make least stack.now }
{
    match stack.top() {
        None => false,
        Some(Pending::Left(_, operator)) => least <= level(*operator),
        Some(Pending::Before(sign)) => least <= sign_level(*sign),
        Some(Pending::Open(..)) => false,
    }
}

/// `left operator right`
fn binary(
    alloc: Global,
    operator: Operator,
    left: Expression,
    right: Expression,
) -> Result<Expression, AllocError>
    ensures { IfOk result (λ made. made ≡ Expression.Binary operator left right) }
{
    let left = match Boxed::new(alloc, left) {
        Ok(left) => left,
        Err(error) => {
            drop(right);
            return Err(error);
        }
    };
    match Boxed::new(alloc, right) {
        Ok(right) => Ok(Expression::Binary(operator, left, right)),
        Err(error) => {
            drop(left);
            Err(error)
        }
    }
}

/// The operation that waited for this operand.
fn made_of(
    alloc: Global,
    pending: Pending,
    expression: Expression,
) -> Result<Expression, AllocError>
    ensures { IfOk result (λ made. made ≡ made_of pending expression) }
{
    match pending {
        Pending::Left(left, operator) => binary(alloc, operator, left, expression),
        Pending::Before(sign) => {
            let operand = Boxed::new(alloc, expression)?;
            Ok(Expression::Signed(sign, operand))
        }
        Pending::Open(bracket, fields, left, stage) => {
            drop(bracket);
            drop(fields);
            drop(left);
            drop(stage);
            Ok(expression)
        }
    }
}

/// Takes what waits on top, if it has at least this level.
fn next_made(least: u8, stack: &mut Stack<Pending>) -> Option<Pending>
    ensures { MatchOption result ((can_make least stack.old ≡ false) × (stack.new ≡ stack.old))
        (λ p. (stack.old ≡ p ∷ stack.new) × (can_make least stack.old ≡ true)) }
{
    if can_make(least, stack) {
        stack.pop()
    } else {
        None
    }
}

/// All pending operations of at least this level are made.
#[tactic(auto, using(f95_expressions::proofs::Reduce::reduced_more, f95_expressions::proofs::Reduce::reduced_done))]
fn reduce(
    alloc: Global,
    least: u8,
    stack: Stack<Pending>,
    expression: Expression,
) -> Result<Held, AllocError>
    ensures { IfOk result (λ held. held ≡ reduce least stack expression) }
{
    let mut stack = stack;
    let mut expression = expression;
    'making: while let Some(pending) = next_made(least, &mut stack) {
        expression = match made_of(alloc, pending, expression) {
            Ok(made) => made,
            Err(error) => {
                drop(stack);
                return Err(error);
            }
        };
    }
    Ok(Held { stack, expression })
}

fn operated(operator: Operator, held: Held) -> Result<Machine, AllocError>
    ensures { IfOk result (λ m. m ≡ operated operator held) }
{
    let Held { stack, expression } = held;
    if asked(&stack) <= level(operator) {
        let stack = pushed(stack, Pending::Left(expression, operator))?;
        Ok(Machine::Waits(stack))
    } else {
        drop(stack);
        drop(expression);
        Ok(Machine::Stops)
    }
}

fn signed(sign: Sign, stack: Stack<Pending>) -> Result<Machine, AllocError>
    ensures { IfOk result (λ m. m ≡ signed sign stack) }
{
    if asked(&stack) <= sign_level(sign) {
        let stack = pushed(stack, Pending::Before(sign))?;
        Ok(Machine::Waits(stack))
    } else {
        drop(stack);
        Ok(Machine::Stops)
    }
}

/// Waits for the next part of a bracket.
fn open(
    bracket: Bracket,
    fields: Stack<Field>,
    left: Option<Expression>,
    stage: Stage,
    stack: Stack<Pending>,
) -> Result<Machine, AllocError>
    ensures { IfOk result (λ m. m ≡ Machine.Waits (Pending.Open bracket fields left stage ∷ stack)) }
{
    let stack = pushed(stack, Pending::Open(bracket, fields, left, stage))?;
    Ok(Machine::Waits(stack))
}

/// A bracket that begins.
pub fn fresh(
    bracket: Bracket,
    fields: Stack<Field>,
    stack: Stack<Pending>,
) -> Result<Machine, AllocError>
    ensures { IfOk result (λ m. m ≡ fresh bracket fields stack) }
{
    open(bracket, fields, None, Stage::Start, stack)
}

fn holds(stack: Stack<Pending>, expression: Option<Expression>) -> Machine
    ensures { result ≡ holds stack expression }
{
    match expression {
        None => {
            drop(stack);
            Machine::Stops
        }
        Some(expression) => Machine::Holds(stack, expression),
    }
}

fn did(stack: Stack<Pending>, value: Option<Value>) -> Machine
    ensures { result ≡ did stack value }
{
    match value {
        None => {
            drop(stack);
            Machine::Stops
        }
        Some(value) => Machine::Did(stack, value),
    }
}

/// `( e )` in the place of an operand.
fn made_bracketed(alloc: Global, last: Field, stack: Stack<Pending>) -> Result<Machine, AllocError>
    ensures { IfOk result (λ m. m ≡ made_plain (last ∷ []) stack) }
{
    match bracketed(alloc, last) {
        Ok(expression) => Ok(holds(stack, expression)),
        Err(error) => {
            drop(stack);
            Err(error)
        }
    }
}

/// An implied DO in the place of an operand.
fn made_implied(
    alloc: Global,
    fields: Stack<Field>,
    before: Field,
    last: Field,
    stack: Stack<Pending>,
) -> Result<Machine, AllocError>
    ensures { IfOk result (λ m. m ≡ made_plain (last ∷ before ∷ fields) stack) }
{
    match implied(alloc, fields, before, last) {
        Ok(value) => Ok(did(stack, value)),
        Err(error) => {
            drop(stack);
            Err(error)
        }
    }
}

fn made_plain(
    alloc: Global,
    fields: Stack<Field>,
    stack: Stack<Pending>,
) -> Result<Machine, AllocError>
    ensures { IfOk result (λ m. m ≡ made_plain fields stack) }
{
    let mut fields = fields;
    let Some(last) = fields.pop() else {
        drop(fields);
        drop(stack);
        return Ok(Machine::Stops);
    };
    match fields.pop() {
        None => {
            drop(fields);
            made_bracketed(alloc, last, stack)
        }
        Some(before) => made_implied(alloc, fields, before, last, stack),
    }
}

fn alone(fields: Stack<Field>, stack: Stack<Pending>) -> Machine
    ensures { result ≡ alone fields stack }
{
    match stack.top() {
        None => {
            drop(stack);
            Machine::Closed(fields)
        }
        Some(_) => {
            drop(fields);
            drop(stack);
            Machine::Stops
        }
    }
}

/// `name ( items )`
fn made_behind(
    alloc: Global,
    name: SharedBytes,
    fields: Stack<Field>,
    stack: Stack<Pending>,
) -> Result<Machine, AllocError>
    ensures { IfOk result (λ m. m ≡ made (Bracket.Behind name) fields stack) }
{
    let items = match items_of(alloc, fields) {
        Ok(Some(items)) => items,
        Ok(None) => {
            drop(name);
            drop(stack);
            return Ok(Machine::Stops);
        }
        Err(error) => {
            drop(name);
            drop(stack);
            return Err(error);
        }
    };
    match Boxed::new(alloc, items) {
        Ok(items) => Ok(Machine::Holds(
            stack,
            Expression::Reference(Reference::Items(name, items)),
        )),
        Err(error) => {
            drop(name);
            drop(stack);
            Err(error)
        }
    }
}

/// `name ( items ) ( lower : upper )`
fn made_behind_items(
    alloc: Global,
    name: SharedBytes,
    items: Boxed<Items<Item>>,
    fields: Stack<Field>,
    stack: Stack<Pending>,
) -> Result<Machine, AllocError>
    ensures { IfOk result (λ m. m ≡ made (Bracket.Part name items) fields stack) }
{
    match made_part(alloc, name, items, fields) {
        Ok(part) => Ok(holds(stack, part)),
        Err(error) => {
            drop(stack);
            Err(error)
        }
    }
}

/// `(/ values /)`
fn made_array(
    alloc: Global,
    fields: Stack<Field>,
    stack: Stack<Pending>,
) -> Result<Machine, AllocError>
    ensures { IfOk result (λ m. m ≡ made Bracket.Array fields stack) }
{
    match values_of(alloc, fields) {
        Ok(Some(values)) => Ok(Machine::Holds(stack, Expression::Constructor(values))),
        Ok(None) => {
            drop(stack);
            Ok(Machine::Stops)
        }
        Err(error) => {
            drop(stack);
            Err(error)
        }
    }
}

/// What closed brackets make of their fields.
fn made(
    alloc: Global,
    bracket: Bracket,
    fields: Stack<Field>,
    stack: Stack<Pending>,
) -> Result<Machine, AllocError>
    ensures { IfOk result (λ m. m ≡ made bracket fields stack) }
{
    match bracket {
        Bracket::Plain => made_plain(alloc, fields, stack),
        Bracket::Behind(name) => made_behind(alloc, name, fields, stack),
        Bracket::Part(name, items) => made_behind_items(alloc, name, items, fields, stack),
        Bracket::Array => made_array(alloc, fields, stack),
        Bracket::Alone => Ok(alone(fields, stack)),
        Bracket::Row => {
            drop(fields);
            drop(stack);
            Ok(Machine::Stops)
        }
    }
}

fn is_closed_by(bracket: &Bracket, closer: Punctuation) -> bool
    ensures { result ≡ is_closed_by bracket.now closer }
{
    match (bracket, closer) {
        (Bracket::Array, Punctuation::CloseArray) => true,
        (Bracket::Plain, Punctuation::Close) => true,
        (Bracket::Behind(_), Punctuation::Close) => true,
        (Bracket::Part(..), Punctuation::Close) => true,
        (Bracket::Alone, Punctuation::Close) => true,
        _ => false,
    }
}

fn parted(
    bracket: Bracket,
    fields: Stack<Field>,
    stack: Stack<Pending>,
    field: Option<Field>,
) -> Result<Machine, AllocError>
    ensures { IfOk result (λ m. m ≡ parted bracket fields stack field) }
{
    let Some(field) = field else {
        drop(bracket);
        drop(fields);
        drop(stack);
        return Ok(Machine::Stops);
    };
    match pushed(fields, field) {
        Ok(fields) => fresh(bracket, fields, stack),
        Err(error) => {
            drop(bracket);
            drop(stack);
            Err(error)
        }
    }
}

fn closed(
    alloc: Global,
    bracket: Bracket,
    fields: Stack<Field>,
    stack: Stack<Pending>,
    field: Option<Field>,
) -> Result<Machine, AllocError>
    ensures { IfOk result (λ m. m ≡ closed bracket fields stack field) }
{
    let Some(field) = field else {
        drop(bracket);
        drop(fields);
        drop(stack);
        return Ok(Machine::Stops);
    };
    match pushed(fields, field) {
        Ok(fields) => made(alloc, bracket, fields, stack),
        Err(error) => {
            drop(bracket);
            drop(stack);
            Err(error)
        }
    }
}

fn with_stage(
    bracket: Bracket,
    fields: Stack<Field>,
    left: Option<Expression>,
    stack: Stack<Pending>,
    stage: Option<Stage>,
) -> Result<Machine, AllocError>
    ensures { IfOk result (λ m. m ≡ with_stage bracket fields left stack stage) }
{
    match stage {
        None => {
            drop(bracket);
            drop(fields);
            drop(left);
            drop(stack);
            Ok(Machine::Stops)
        }
        Some(stage) => open(bracket, fields, left, stage, stack),
    }
}

fn with_left(
    bracket: Bracket,
    fields: Stack<Field>,
    stack: Stack<Pending>,
    left: Option<Expression>,
) -> Result<Machine, AllocError>
    ensures { IfOk result (λ m. m ≡ with_left bracket fields stack left) }
{
    match left {
        None => {
            drop(bracket);
            drop(fields);
            drop(stack);
            Ok(Machine::Stops)
        }
        Some(left) => open(bracket, fields, Some(left), Stage::Start, stack),
    }
}

fn parted_by(ending: Ending, stack: Stack<Pending>) -> Result<Machine, AllocError>
    ensures { IfOk result (λ m. m ≡ parted ending.bracket ending.fields stack (field_of ending.left ending.stage ending.last)) }
{
    let Ending {
        bracket,
        fields,
        left,
        stage,
        last,
    } = ending;
    parted(bracket, fields, stack, field_of(left, stage, last))
}

fn coloned_by(ending: Ending, stack: Stack<Pending>) -> Result<Machine, AllocError>
    ensures { IfOk result (λ m. m ≡ with_stage ending.bracket ending.fields ending.left stack (coloned ending.stage ending.last)) }
{
    let Ending {
        bracket,
        fields,
        left,
        stage,
        last,
    } = ending;
    with_stage(bracket, fields, left, stack, coloned(stage, last))
}

fn assigned_by(ending: Ending, stack: Stack<Pending>) -> Result<Machine, AllocError>
    ensures { IfOk result (λ m. m ≡ with_left ending.bracket ending.fields stack (assigned ending.left ending.stage ending.last)) }
{
    let Ending {
        bracket,
        fields,
        left,
        stage,
        last,
    } = ending;
    with_left(bracket, fields, stack, assigned(left, stage, last))
}

fn closed_by(alloc: Global, ending: Ending, stack: Stack<Pending>) -> Result<Machine, AllocError>
    ensures { IfOk result (λ m. m ≡ closed ending.bracket ending.fields stack (field_of ending.left ending.stage ending.last)) }
{
    let Ending {
        bracket,
        fields,
        left,
        stage,
        last,
    } = ending;
    closed(alloc, bracket, fields, stack, field_of(left, stage, last))
}

/// A separator or a closer in a bracket.
fn separated_in(
    alloc: Global,
    ending: Ending,
    stack: Stack<Pending>,
    mark: Punctuation,
) -> Result<Machine, AllocError>
    ensures { IfOk result (λ m. m ≡ separated_in ending.bracket ending.fields ending.left ending.stage stack ending.last mark) }
{
    match mark {
        Punctuation::Comma => parted_by(ending, stack),
        Punctuation::Colon => coloned_by(ending, stack),
        Punctuation::Assign => assigned_by(ending, stack),
        Punctuation::Close | Punctuation::CloseArray => {
            if is_closed_by(&ending.bracket, mark) {
                closed_by(alloc, ending, stack)
            } else {
                drop(ending);
                drop(stack);
                Ok(Machine::Stops)
            }
        }
        _ => {
            drop(ending);
            drop(stack);
            Ok(Machine::Stops)
        }
    }
}

/// What a bracket on top of a stack has read.
fn ending_of(pending: Option<Pending>, last: Option<Value>) -> Option<Ending>
    ensures { result ≡ ending_of pending last }
{
    match pending {
        None => {
            drop(last);
            None
        }
        Some(Pending::Left(left, _)) => {
            drop(left);
            drop(last);
            None
        }
        Some(Pending::Before(_)) => {
            drop(last);
            None
        }
        Some(Pending::Open(bracket, fields, left, stage)) => Some(Ending {
            bracket,
            fields,
            left,
            stage,
            last,
        }),
    }
}

fn separated(
    alloc: Global,
    stack: Stack<Pending>,
    last: Option<Value>,
    mark: Punctuation,
) -> Result<Machine, AllocError>
    ensures { IfOk result (λ m. m ≡ separated stack last mark) }
{
    let mut stack = stack;
    let pending = stack.pop();
    match ending_of(pending, last) {
        None => {
            drop(stack);
            Ok(Machine::Stops)
        }
        Some(ending) => separated_in(alloc, ending, stack, mark),
    }
}

fn first_mark(
    alloc: Global,
    stack: Stack<Pending>,
    mark: Punctuation,
) -> Result<Machine, AllocError>
    ensures { IfOk result (λ m. m ≡ first_mark stack mark) }
{
    match mark {
        Punctuation::Open => fresh(Bracket::Plain, Stack::new(alloc), stack),
        Punctuation::OpenArray => fresh(Bracket::Array, Stack::new(alloc), stack),
        _ => separated(alloc, stack, None, mark),
    }
}

fn first_operator(stack: Stack<Pending>, operator: Operator) -> Result<Machine, AllocError>
    ensures { IfOk result (λ m. m ≡ first_operator stack operator) }
{
    match operator {
        Operator::Add => signed(Sign::Plus, stack),
        Operator::Subtract => signed(Sign::Minus, stack),
        _ => {
            drop(stack);
            Ok(Machine::Stops)
        }
    }
}

fn copy_literal(literal: &Literal) -> Result<Literal, AllocError>
    ensures { IfOk result (λ copy. copy ≡ literal.now) }
{
    match literal {
        Literal::Number(number) => Ok(Literal::Number(*number)),
        Literal::Text(text) => Ok(Literal::Text(text.share()?)),
        Literal::Logical(value) => Ok(Literal::Logical(*value)),
    }
}

/// A literal in the place of an operand.
fn literal_step(stack: Stack<Pending>, literal: &Literal) -> Result<Machine, AllocError>
    ensures { IfOk result (λ m. m ≡ Machine.Holds stack (Expression.Literal literal.now)) }
{
    match copy_literal(literal) {
        Ok(literal) => Ok(Machine::Holds(stack, Expression::Literal(literal))),
        Err(error) => {
            drop(stack);
            Err(error)
        }
    }
}

/// A name in the place of an operand.
fn name_step(stack: Stack<Pending>, name: &SharedBytes) -> Result<Machine, AllocError>
    ensures { IfOk result (λ m. m ≡ Machine.Holds stack (Expression.Reference (Reference.Whole name.now))) }
{
    match name.share() {
        Ok(name) => Ok(Machine::Holds(stack, Expression::Reference(Reference::Whole(name)))),
        Err(error) => {
            drop(stack);
            Err(error)
        }
    }
}

/// A terminal where an operand may begin.
fn first_step(
    alloc: Global,
    stack: Stack<Pending>,
    terminal: &Terminal,
) -> Result<Machine, AllocError>
    ensures { IfOk result (λ m. m ≡ first_step stack terminal.now) }
{
    match terminal {
        Terminal::Literal(literal) => literal_step(stack, literal),
        Terminal::Name(name) => name_step(stack, name),
        Terminal::Operator(operator) => first_operator(stack, *operator),
        Terminal::Not => signed(Sign::Not, stack),
        Terminal::Punctuation(mark) => first_mark(alloc, stack, *mark),
        _ => {
            drop(stack);
            Ok(Machine::Stops)
        }
    }
}

/// An opening bracket behind a reference.
fn opened_behind(
    alloc: Global,
    stack: Stack<Pending>,
    reference: Reference,
) -> Result<Machine, AllocError>
    ensures { IfOk result (λ m. m ≡ next_mark stack (Expression.Reference reference) Punctuation.Open) }
{
    match reference {
        Reference::Whole(name) => fresh(Bracket::Behind(name), Stack::new(alloc), stack),
        Reference::Items(name, items) => {
            fresh(Bracket::Part(name, items), Stack::new(alloc), stack)
        }
        other => {
            drop(other);
            drop(stack);
            Ok(Machine::Stops)
        }
    }
}

/// An opening bracket behind an operand.
fn opened(alloc: Global, stack: Stack<Pending>, operand: Expression) -> Result<Machine, AllocError>
    ensures { IfOk result (λ m. m ≡ next_mark stack operand Punctuation.Open) }
{
    match operand {
        Expression::Reference(reference) => opened_behind(alloc, stack, reference),
        other => {
            drop(other);
            drop(stack);
            Ok(Machine::Stops)
        }
    }
}

fn ended_by(alloc: Global, held: Held, mark: Punctuation) -> Result<Machine, AllocError>
    ensures { IfOk result (λ m. m ≡ ended_by held mark) }
{
    let Held { stack, expression } = held;
    separated(alloc, stack, Some(Value::One(expression)), mark)
}

fn next_mark(
    alloc: Global,
    stack: Stack<Pending>,
    operand: Expression,
    mark: Punctuation,
) -> Result<Machine, AllocError>
    ensures { IfOk result (λ m. m ≡ next_mark stack operand mark) }
{
    match mark {
        Punctuation::Open => opened(alloc, stack, operand),
        _ => {
            let held = reduce(alloc, 0, stack, operand)?;
            ended_by(alloc, held, mark)
        }
    }
}

/// A terminal behind an operand.
fn next_step(
    alloc: Global,
    stack: Stack<Pending>,
    operand: Expression,
    terminal: &Terminal,
) -> Result<Machine, AllocError>
    ensures { IfOk result (λ m. m ≡ next_step stack operand terminal.now) }
{
    match terminal {
        Terminal::Operator(operator) => {
            let held = reduce(alloc, left_of(*operator), stack, operand)?;
            operated(*operator, held)
        }
        Terminal::Punctuation(mark) => next_mark(alloc, stack, operand, *mark),
        _ => {
            drop(stack);
            drop(operand);
            Ok(Machine::Stops)
        }
    }
}

/// A terminal behind an implied DO.
fn did_step(
    alloc: Global,
    stack: Stack<Pending>,
    value: Value,
    terminal: &Terminal,
) -> Result<Machine, AllocError>
    ensures { IfOk result (λ m. m ≡ did_step stack value terminal.now) }
{
    match terminal {
        Terminal::Punctuation(mark) => separated(alloc, stack, Some(value), *mark),
        _ => {
            drop(stack);
            drop(value);
            Ok(Machine::Stops)
        }
    }
}

pub fn step(alloc: Global, machine: Machine, terminal: &Terminal) -> Result<Machine, AllocError>
    ensures { IfOk result (λ m. m ≡ step machine terminal.now) }
{
    match machine {
        Machine::Waits(stack) => first_step(alloc, stack, terminal),
        Machine::Holds(stack, operand) => next_step(alloc, stack, operand, terminal),
        Machine::Did(stack, value) => did_step(alloc, stack, value, terminal),
        Machine::Closed(fields) => {
            drop(fields);
            Ok(Machine::Stops)
        }
        Machine::Stops => Ok(Machine::Stops),
    }
}

/// The fields of a row, with one more.
fn with_field(
    fields: Stack<Field>,
    field: Option<Field>,
) -> Result<Option<Stack<Field>>, AllocError>
    ensures { IfOk result (λ all. all ≡ option_map (λ f. f ∷ fields) field) }
{
    match field {
        None => {
            drop(fields);
            Ok(None)
        }
        Some(field) => {
            let fields = pushed(fields, field)?;
            Ok(Some(fields))
        }
    }
}

fn is_row(bracket: &Bracket) -> bool
    ensures { result ≡ is_row bracket.now }
{
    matches!(bracket, Bracket::Row)
}

fn row_ending(ending: Ending) -> Result<Option<Stack<Field>>, AllocError>
    ensures { IfOk result (λ fields. fields ≡ row_ending ending) }
{
    let Ending {
        bracket,
        fields,
        left,
        stage,
        last,
    } = ending;
    if is_row(&bracket) {
        drop(bracket);
        with_field(fields, field_of(left, stage, last))
    } else {
        drop(bracket);
        drop(fields);
        drop(left);
        drop(stage);
        drop(last);
        Ok(None)
    }
}

/// The fields of a row that ends here.
#[tactic(auto, using(f95_expressions::proofs::Runs::row_parts))]
fn row_of(stack: Stack<Pending>, last: Option<Value>) -> Result<Option<Stack<Field>>, AllocError>
    ensures { IfOk result (λ fields. fields ≡ option_and_then row_found (row_of stack last)) }
{
    let mut stack = stack;
    let pending = stack.pop();
    let Some(ending) = ending_of(pending, last) else {
        drop(stack);
        return Ok(None);
    };
    match stack.top() {
        Some(_) => {
            drop(stack);
            drop(ending);
            Ok(None)
        }
        None => {
            drop(stack);
            row_ending(ending)
        }
    }
}

pub fn ended_row(alloc: Global, machine: Machine) -> Result<Option<Stack<Field>>, AllocError>
    ensures { IfOk result (λ fields. fields ≡ option_and_then row_found (ended machine)) }
{
    match machine {
        Machine::Waits(stack) => row_of(stack, None),
        Machine::Holds(stack, operand) => {
            let Held { stack, expression } = reduce(alloc, 0, stack, operand)?;
            row_of(stack, Some(Value::One(expression)))
        }
        Machine::Did(stack, value) => row_of(stack, Some(value)),
        Machine::Closed(fields) => {
            drop(fields);
            Ok(None)
        }
        Machine::Stops => Ok(None),
    }
}
