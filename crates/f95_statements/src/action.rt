//! Statements that may stand behind `IF ( e )`, as `specs/Actions` says.

ghost use Rattle.std.specs.Prelude.{◌≡◌, [], ◌∷◌, IfOk, option_map, option_and_then};
ghost use Rattle.f95_expressions.specs.Machine.{collected, within, expression_of, bracket, row};
ghost use Rattle.f95_parts.specs.Parts.{reference_of, name_of, argument_of, allocation_of, header_of, assignment_of};
ghost use Rattle.f95_parts.specs.Views.{nothing_more, name_at_end, at_end, behind_literal};
ghost use Rattle.f95_statements.specs.Actions.{whole_bracket, only, conditioned, headed, listed, listed_behind, assigned};
ghost use Rattle.f95_statements.specs.Actions.{behind_unit, arguments_of, call_of, allocate_of, deallocate_of, print_of, write_of};
ghost use Rattle.f95_statements.specs.Actions.{read_of, read_unit, stop_code, stop_of, action_by, where_of, forall_of, blocked};
ghost use Rattle.f95_statements.specs.Actions.{action_of};

use a95_base::{SharedBytes, Stack};
use f95_expressions::{Field, expression_of, within};
use f95_fields::{Closed, bracket, row};
use f95_parts::{
    Part, assignment_of, behind, behind_keyword, behind_name, behind_star, collected, header_of,
    is_nil, parted,
};
use f95_tree::{
    Action, ActionWord, Argument, Assignment, BlockWord, Expression, Header, Keyword, Literal,
    Punctuation, Terminal,
};
use sqlite_items::{Boxed, Items};
use std::alloc::{AllocError, Global};

/// The fields in brackets with nothing behind them.
pub fn whole_bracket(
    alloc: Global,
    terminals: &[Terminal],
) -> Result<Option<Stack<Field>>, AllocError>
    ensures { IfOk result (λ fields. fields ≡ whole_bracket terminals.now) }
{
    let Some(inside) = behind(Punctuation::Open, terminals) else {
        return Ok(None);
    };
    match bracket(alloc, inside)? {
        None => Ok(None),
        Some(Closed { fields, rest }) => {
            if is_nil(rest) {
                Ok(Some(fields))
            } else {
                drop(fields);
                Ok(None)
            }
        }
    }
}

pub fn only(fields: Stack<Field>) -> Option<Field>
    ensures { result ≡ only fields }
{
    let mut fields = fields;
    let Some(field) = fields.pop() else {
        drop(fields);
        return None;
    };
    match fields.top() {
        None => {
            drop(fields);
            Some(field)
        }
        Some(_) => {
            drop(fields);
            drop(field);
            None
        }
    }
}

/// An expression in brackets, and what stands behind them.
#[derive(Drop)]
pub struct Condition<'a> {
    pub expression: Boxed<Expression>,
    pub rest: &'a [Terminal],
}

pub fn only_expression(fields: Stack<Field>) -> Option<Expression>
    ensures { result ≡ option_and_then expression_of (only fields) }
{
    expression_of(only(fields)?)
}

pub fn conditioned(
    alloc: Global,
    terminals: &[Terminal],
) -> Result<Option<Condition<'_>>, AllocError>
    ensures { IfOk result (λ found. option_map (λ c. (c.expression, c.rest.now)) found ≡ conditioned terminals.now) }
{
    let Some(inside) = behind(Punctuation::Open, terminals) else {
        return Ok(None);
    };
    match bracket(alloc, inside)? {
        None => Ok(None),
        Some(Closed { fields, rest }) => match only_expression(fields) {
            None => Ok(None),
            Some(expression) => {
                let expression = Boxed::new(alloc, expression)?;
                Ok(Some(Condition { expression, rest }))
            }
        },
    }
}

/// The header of a FORALL, and what stands behind it.
#[derive(Drop)]
pub struct HeaderAt<'a> {
    pub header: Boxed<Header>,
    pub rest: &'a [Terminal],
}

pub fn headed(alloc: Global, terminals: &[Terminal]) -> Result<Option<HeaderAt<'_>>, AllocError>
    ensures { IfOk result (λ found. option_map (λ h. (h.header, h.rest.now)) found ≡ headed terminals.now) }
{
    let Some(inside) = behind(Punctuation::Open, terminals) else {
        return Ok(None);
    };
    match bracket(alloc, inside)? {
        None => Ok(None),
        Some(Closed { fields, rest }) => match header_of(alloc, fields)? {
            None => Ok(None),
            Some(header) => {
                let header = Boxed::new(alloc, header)?;
                Ok(Some(HeaderAt { header, rest }))
            }
        },
    }
}

/// What each field of a row is.
fn row_of<P: Part>(alloc: Global, terminals: &[Terminal]) -> Result<Option<Items<P>>, AllocError>
    ensures { IfOk result (λ parts. parts ≡ option_and_then (collected P.taken []) (row terminals.now)) }
{
    match row(alloc, terminals)? {
        None => Ok(None),
        Some(fields) => collected(alloc, fields),
    }
}

/// The same, of which there may be none.
pub fn listed<P: Part>(
    alloc: Global,
    terminals: &[Terminal],
) -> Result<Option<Items<P>>, AllocError>
    ensures { IfOk result (λ parts. parts ≡ listed P.taken terminals.now) }
{
    if is_nil(terminals) {
        Ok(Some(Items::new(alloc)))
    } else {
        row_of(alloc, terminals)
    }
}

/// The same, each behind a comma.
fn listed_behind<P: Part>(
    alloc: Global,
    terminals: &[Terminal],
) -> Result<Option<Items<P>>, AllocError>
    ensures { IfOk result (λ parts. parts ≡ listed_behind P.taken terminals.now) }
{
    if is_nil(terminals) {
        return Ok(Some(Items::new(alloc)));
    }
    match behind(Punctuation::Comma, terminals) {
        None => Ok(None),
        Some(rest) => row_of(alloc, rest),
    }
}

pub fn assigned(
    alloc: Global,
    terminals: &[Terminal],
) -> Result<Option<Boxed<Assignment>>, AllocError>
    ensures { IfOk result (λ assignment. assignment ≡ assigned terminals.now) }
{
    let Some(fields) = row(alloc, terminals)? else {
        return Ok(None);
    };
    match only(fields) {
        None => Ok(None),
        Some(field) => match assignment_of(field) {
            None => Ok(None),
            Some(assignment) => Ok(Some(Boxed::new(alloc, assignment)?)),
        },
    }
}

/// What stands behind `( * , * )`.
fn behind_unit(terminals: &[Terminal]) -> Option<&[Terminal]>
    ensures { option_map (λ rest. rest.now) result ≡ behind_unit terminals.now }
{
    let inside = behind(Punctuation::Open, terminals)?;
    let comma = behind_star(inside)?;
    let format = behind(Punctuation::Comma, comma)?;
    let close = behind_star(format)?;
    behind(Punctuation::Close, close)
}

fn arguments_of(
    alloc: Global,
    terminals: &[Terminal],
) -> Result<Option<Boxed<Items<Argument>>>, AllocError>
    ensures { IfOk result (λ arguments. arguments ≡ arguments_of terminals.now) }
{
    let Some(fields) = whole_bracket(alloc, terminals)? else {
        return Ok(None);
    };
    let fields = within(fields)?;
    match collected(alloc, fields)? {
        None => Ok(None),
        Some(arguments) => Ok(Some(Boxed::new(alloc, arguments)?)),
    }
}

fn call_of(alloc: Global, terminals: &[Terminal]) -> Result<Option<Action>, AllocError>
    ensures { IfOk result (λ action. action ≡ call_of terminals.now) }
{
    let Some(named) = behind_name(terminals) else {
        return Ok(None);
    };
    let name = named.name.share()?;
    if is_nil(named.rest) {
        return Ok(Some(Action::Call(name, None)));
    }
    match arguments_of(alloc, named.rest) {
        Ok(Some(arguments)) => Ok(Some(Action::Call(name, Some(arguments)))),
        Ok(None) => {
            drop(name);
            Ok(None)
        }
        Err(error) => {
            drop(name);
            Err(error)
        }
    }
}

fn allocate_of(alloc: Global, terminals: &[Terminal]) -> Result<Option<Action>, AllocError>
    ensures { IfOk result (λ action. action ≡ allocate_of terminals.now) }
{
    let Some(fields) = whole_bracket(alloc, terminals)? else {
        return Ok(None);
    };
    match collected(alloc, fields)? {
        None => Ok(None),
        Some(objects) => Ok(Some(Action::Allocate(objects))),
    }
}

fn deallocate_of(alloc: Global, terminals: &[Terminal]) -> Result<Option<Action>, AllocError>
    ensures { IfOk result (λ action. action ≡ deallocate_of terminals.now) }
{
    let Some(fields) = whole_bracket(alloc, terminals)? else {
        return Ok(None);
    };
    match collected(alloc, fields)? {
        None => Ok(None),
        Some(names) => Ok(Some(Action::Deallocate(names))),
    }
}

fn print_of(alloc: Global, terminals: &[Terminal]) -> Result<Option<Action>, AllocError>
    ensures { IfOk result (λ action. action ≡ print_of terminals.now) }
{
    let Some(rest) = behind_star(terminals) else {
        return Ok(None);
    };
    match listed_behind(alloc, rest)? {
        None => Ok(None),
        Some(items) => Ok(Some(Action::Print(items))),
    }
}

fn write_of(alloc: Global, terminals: &[Terminal]) -> Result<Option<Action>, AllocError>
    ensures { IfOk result (λ action. action ≡ write_of terminals.now) }
{
    let Some(rest) = behind_unit(terminals) else {
        return Ok(None);
    };
    match listed(alloc, rest)? {
        None => Ok(None),
        Some(items) => Ok(Some(Action::Write(items))),
    }
}

fn read_unit(alloc: Global, terminals: &[Terminal]) -> Result<Option<Action>, AllocError>
    ensures { IfOk result (λ action. action ≡ read_unit terminals.now) }
{
    let Some(rest) = behind_unit(terminals) else {
        return Ok(None);
    };
    match listed(alloc, rest)? {
        None => Ok(None),
        Some(items) => Ok(Some(Action::ReadUnit(items))),
    }
}

fn read_of(alloc: Global, terminals: &[Terminal]) -> Result<Option<Action>, AllocError>
    ensures { IfOk result (λ action. action ≡ read_of terminals.now) }
{
    let Some(rest) = behind_star(terminals) else {
        return read_unit(alloc, terminals);
    };
    match listed_behind(alloc, rest)? {
        None => Ok(None),
        Some(items) => Ok(Some(Action::Read(items))),
    }
}

/// A number or a text.
fn stop_code(literal: &Literal) -> Result<Option<Literal>, AllocError>
    ensures { IfOk result (λ code. code ≡ stop_code literal.now) }
{
    match literal {
        Literal::Number(number) => Ok(Some(Literal::Number(*number))),
        Literal::Text(text) => Ok(Some(Literal::Text(text.share()?))),
        Literal::Logical(_) => Ok(None),
    }
}

fn literal_at_end(terminals: &[Terminal]) -> Option<&Literal>
    ensures { option_map (λ l. l.now) result ≡ option_and_then at_end (behind_literal terminals.now) }
{
    match parted(terminals) {
        Some((Terminal::Literal(literal), rest)) => {
            if is_nil(rest) { Some(literal) } else { None }
        }
        _ => None,
    }
}

fn stop_of(terminals: &[Terminal]) -> Result<Option<Action>, AllocError>
    ensures { IfOk result (λ action. action ≡ stop_of terminals.now) }
{
    if is_nil(terminals) {
        return Ok(Some(Action::Stop(None)));
    }
    let Some(literal) = literal_at_end(terminals) else {
        return Ok(None);
    };
    match stop_code(literal)? {
        None => Ok(None),
        Some(code) => Ok(Some(Action::Stop(Some(code)))),
    }
}

/// A name, or nothing.
pub fn name_at_end(terminals: &[Terminal]) -> Result<Option<Option<SharedBytes>>, AllocError>
    ensures { IfOk result (λ name. name ≡ name_at_end terminals.now) }
{
    if is_nil(terminals) {
        return Ok(Some(None));
    }
    let Some(named) = behind_name(terminals) else {
        return Ok(None);
    };
    if is_nil(named.rest) {
        let name = named.name.share()?;
        Ok(Some(Some(name)))
    } else {
        Ok(None)
    }
}

fn nothing_more(action: Action, terminals: &[Terminal]) -> Option<Action>
    ensures { result ≡ nothing_more action terminals.now }
{
    if is_nil(terminals) {
        Some(action)
    } else {
        drop(action);
        None
    }
}

fn exit_of(terminals: &[Terminal]) -> Result<Option<Action>, AllocError>
    ensures { IfOk result (λ action. action ≡ option_map Action.Exit (name_at_end terminals.now)) }
{
    match name_at_end(terminals)? {
        None => Ok(None),
        Some(name) => Ok(Some(Action::Exit(name))),
    }
}

fn cycle_of(terminals: &[Terminal]) -> Result<Option<Action>, AllocError>
    ensures { IfOk result (λ action. action ≡ option_map Action.Cycle (name_at_end terminals.now)) }
{
    match name_at_end(terminals)? {
        None => Ok(None),
        Some(name) => Ok(Some(Action::Cycle(name))),
    }
}

fn action_by(
    alloc: Global,
    word: ActionWord,
    terminals: &[Terminal],
) -> Result<Option<Action>, AllocError>
    ensures { IfOk result (λ action. action ≡ action_by word terminals.now) }
{
    match word {
        ActionWord::Call => call_of(alloc, terminals),
        ActionWord::Allocate => allocate_of(alloc, terminals),
        ActionWord::Deallocate => deallocate_of(alloc, terminals),
        ActionWord::Print => print_of(alloc, terminals),
        ActionWord::Write => write_of(alloc, terminals),
        ActionWord::Read => read_of(alloc, terminals),
        ActionWord::Stop => stop_of(terminals),
        ActionWord::Return => Ok(nothing_more(Action::Return, terminals)),
        ActionWord::Continue => Ok(nothing_more(Action::Continue, terminals)),
        ActionWord::Exit => exit_of(terminals),
        ActionWord::Cycle => cycle_of(terminals),
    }
}

fn where_of(alloc: Global, terminals: &[Terminal]) -> Result<Option<Action>, AllocError>
    ensures { IfOk result (λ action. action ≡ where_of terminals.now) }
{
    let Some(Condition { expression, rest }) = conditioned(alloc, terminals)? else {
        return Ok(None);
    };
    match assigned(alloc, rest) {
        Ok(Some(assignment)) => Ok(Some(Action::Where(expression, assignment))),
        Ok(None) => {
            drop(expression);
            Ok(None)
        }
        Err(error) => {
            drop(expression);
            Err(error)
        }
    }
}

fn forall_of(alloc: Global, terminals: &[Terminal]) -> Result<Option<Action>, AllocError>
    ensures { IfOk result (λ action. action ≡ forall_of terminals.now) }
{
    let Some(HeaderAt { header, rest }) = headed(alloc, terminals)? else {
        return Ok(None);
    };
    match assigned(alloc, rest) {
        Ok(Some(assignment)) => Ok(Some(Action::Forall(header, assignment))),
        Ok(None) => {
            drop(header);
            Ok(None)
        }
        Err(error) => {
            drop(header);
            Err(error)
        }
    }
}

fn blocked(
    alloc: Global,
    word: BlockWord,
    terminals: &[Terminal],
) -> Result<Option<Action>, AllocError>
    ensures { IfOk result (λ action. action ≡ blocked word terminals.now) }
{
    match word {
        BlockWord::Where => where_of(alloc, terminals),
        BlockWord::Forall => forall_of(alloc, terminals),
        _ => Ok(None),
    }
}

/// The statement that all these terminals are, if it may stand behind `IF ( e )`.
pub fn action_of(alloc: Global, terminals: &[Terminal]) -> Result<Option<Action>, AllocError>
    ensures { IfOk result (λ action. action ≡ action_of terminals.now) }
{
    match behind_keyword(terminals) {
        None => match assigned(alloc, terminals)? {
            None => Ok(None),
            Some(assignment) => Ok(Some(Action::Assignment(assignment))),
        },
        Some(keyed) => match keyed.keyword {
            Keyword::Action(word) => action_by(alloc, word, keyed.rest),
            Keyword::Block(word) => blocked(alloc, word, keyed.rest),
            _ => Ok(None),
        },
    }
}
