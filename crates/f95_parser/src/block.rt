//! Statements that begin, part and end blocks, as `specs/Reading` says.

ghost use Rattle.std.specs.Prelude.{◌≡◌, [], ◌∷◌, IfOk, option_map, option_and_then};
ghost use Rattle.f95_expressions.specs.Machine.{row, expression_of, whole, first_in};
ghost use Rattle.f95_parts.specs.Views.{nothing_more};
ghost use Rattle.f95_parser.specs.Reading.{whole_condition, is_then, if_block, select_by, select_of, index_of, counted_by};
ghost use Rattle.f95_parser.specs.Reading.{counted_in, counted, while_of, control_by, controlled, do_of, opened_by, labelled};
ghost use Rattle.f95_parser.specs.Reading.{case_in, case_of, else_if, else_where, else_of, end_block};

use a95_base::{SharedBytes, Stack};
use f95_expressions::{Field, Spread, boxed, expression_of, whole};
use f95_fields::{Closed, bracket, row};
use f95_parts::{behind, behind_keyword, behind_word, collected, is_nil, spread_expression};
use f95_statements::{Condition, conditioned, name_at_end};
use f95_tree::{BlockForm, BlockWord, Control, Expression, Keyword, Punctuation, Terminal};
use sqlite_items::Boxed;
use std::alloc::{AllocError, Global};

/// A condition in brackets with nothing behind them.
pub fn whole_condition(
    alloc: Global,
    terminals: &[Terminal],
) -> Result<Option<Boxed<Expression>>, AllocError>
    ensures { IfOk result (λ condition. condition ≡ whole_condition terminals.now) }
{
    match conditioned(alloc, terminals)? {
        None => Ok(None),
        Some(Condition { expression, rest }) => {
            if is_nil(rest) {
                Ok(Some(expression))
            } else {
                drop(expression);
                Ok(None)
            }
        }
    }
}

/// Whether these terminals are THEN alone.
pub fn is_then(terminals: &[Terminal]) -> bool
    ensures { result ≡ is_then terminals.now }
{
    match behind_word(b"then", terminals) {
        None => false,
        Some(rest) => is_nil(rest),
    }
}

fn if_block(
    alloc: Global,
    name: Option<SharedBytes>,
    terminals: &[Terminal],
) -> Result<Option<BlockForm>, AllocError>
    ensures { IfOk result (λ form. form ≡ if_block name terminals.now) }
{
    match conditioned(alloc, terminals) {
        Ok(Some(Condition { expression, rest })) => {
            if is_then(rest) {
                Ok(Some(BlockForm::If(name, expression)))
            } else {
                drop(name);
                drop(expression);
                Ok(None)
            }
        }
        Ok(None) => {
            drop(name);
            Ok(None)
        }
        Err(error) => {
            drop(name);
            Err(error)
        }
    }
}

fn select_by(
    alloc: Global,
    name: Option<SharedBytes>,
    keyword: Keyword,
    rest: &[Terminal],
) -> Result<Option<BlockForm>, AllocError>
    ensures { IfOk result (λ form. form ≡ select_by name keyword rest.now) }
{
    match keyword {
        Keyword::Case => match whole_condition(alloc, rest) {
            Ok(Some(selector)) => Ok(Some(BlockForm::Select(name, selector))),
            Ok(None) => {
                drop(name);
                Ok(None)
            }
            Err(error) => {
                drop(name);
                Err(error)
            }
        },
        _ => {
            drop(name);
            Ok(None)
        }
    }
}

pub fn select_of(
    alloc: Global,
    name: Option<SharedBytes>,
    terminals: &[Terminal],
) -> Result<Option<BlockForm>, AllocError>
    ensures { IfOk result (λ form. form ≡ select_of name terminals.now) }
{
    match behind_keyword(terminals) {
        None => {
            drop(name);
            Ok(None)
        }
        Some(keyed) => select_by(alloc, name, keyed.keyword, keyed.rest),
    }
}

fn index_name(left: Option<Expression>) -> Option<SharedBytes>
    ensures { result ≡ option_and_then whole left }
{
    whole(left?)
}

/// The control, with each of its expressions in a box of its own.
fn counted_with(
    alloc: Global,
    comma: bool,
    name: SharedBytes,
    first: Expression,
    last: Expression,
    step: Option<Expression>,
) -> Result<Control, AllocError>
    ensures { IfOk result (λ control. control ≡ Control.Counted comma name first last step) }
{
    let first = match Boxed::new(alloc, first) {
        Ok(first) => first,
        Err(error) => {
            drop(name);
            drop(last);
            drop(step);
            return Err(error);
        }
    };
    let last = match Boxed::new(alloc, last) {
        Ok(last) => last,
        Err(error) => {
            drop(name);
            drop(first);
            drop(step);
            return Err(error);
        }
    };
    match boxed(alloc, step) {
        Ok(step) => Ok(Control::Counted(comma, name, first, last, step)),
        Err(error) => {
            drop(name);
            drop(first);
            drop(last);
            Err(error)
        }
    }
}

fn counted_to(
    alloc: Global,
    comma: bool,
    name: SharedBytes,
    first: Expression,
    last: Field,
    step: Option<Expression>,
) -> Result<Option<Control>, AllocError>
    ensures { IfOk result (λ control. control
        ≡ option_map (λ to. Control.Counted comma name first to step) (expression_of last)) }
{
    let Some(last) = expression_of(last) else {
        drop(name);
        drop(first);
        drop(step);
        return Ok(None);
    };
    let control = counted_with(alloc, comma, name, first, last, step)?;
    Ok(Some(control))
}

fn counted_from(
    alloc: Global,
    comma: bool,
    name: SharedBytes,
    spread: Spread,
    last: Field,
    step: Option<Expression>,
) -> Result<Option<Control>, AllocError>
    ensures { IfOk result (λ control. control ≡ option_and_then
        (λ from. option_map (λ to. Control.Counted comma name from to step) (expression_of last)) (first_in spread)) }
{
    match spread_expression(spread) {
        None => {
            drop(name);
            drop(last);
            drop(step);
            Ok(None)
        }
        Some(first) => counted_to(alloc, comma, name, first, last, step),
    }
}

fn counted_by(
    alloc: Global,
    comma: bool,
    index: Field,
    last: Field,
    step: Option<Expression>,
) -> Result<Option<Control>, AllocError>
    ensures { IfOk result (λ control. control ≡ counted_by comma index last step) }
{
    let Field { left, spread } = index;
    match index_name(left) {
        None => {
            drop(spread);
            drop(last);
            drop(step);
            Ok(None)
        }
        Some(name) => counted_from(alloc, comma, name, spread, last, step),
    }
}

fn counted_two(
    alloc: Global,
    comma: bool,
    fields: Stack<Field>,
    index: Field,
    last: Field,
) -> Result<Option<Control>, AllocError>
    ensures { IfOk result (λ control. control ≡ counted_in comma (last ∷ index ∷ fields)) }
{
    let mut fields = fields;
    let Some(third) = fields.pop() else {
        drop(fields);
        return counted_by(alloc, comma, index, last, None);
    };
    match fields.top() {
        Some(_) => {
            drop(fields);
            drop(third);
            drop(index);
            drop(last);
            Ok(None)
        }
        None => {
            drop(fields);
            counted_three(alloc, comma, third, index, last)
        }
    }
}

fn counted_three(
    alloc: Global,
    comma: bool,
    index: Field,
    last: Field,
    step: Field,
) -> Result<Option<Control>, AllocError>
    ensures { IfOk result (λ control. control
        ≡ option_and_then (λ step. counted_by comma index last (Some step)) (expression_of step)) }
{
    let Some(step) = expression_of(step) else {
        drop(index);
        drop(last);
        return Ok(None);
    };
    counted_by(alloc, comma, index, last, Some(step))
}

fn counted_in(
    alloc: Global,
    comma: bool,
    fields: Stack<Field>,
) -> Result<Option<Control>, AllocError>
    ensures { IfOk result (λ control. control ≡ counted_in comma fields) }
{
    let mut fields = fields;
    let Some(last) = fields.pop() else {
        drop(fields);
        return Ok(None);
    };
    let Some(before) = fields.pop() else {
        drop(fields);
        drop(last);
        return Ok(None);
    };
    counted_two(alloc, comma, fields, before, last)
}

fn counted(
    alloc: Global,
    comma: bool,
    terminals: &[Terminal],
) -> Result<Option<Control>, AllocError>
    ensures { IfOk result (λ control. control ≡ counted comma terminals.now) }
{
    match row(alloc, terminals)? {
        None => Ok(None),
        Some(fields) => counted_in(alloc, comma, fields),
    }
}

fn while_of(
    alloc: Global,
    comma: bool,
    terminals: &[Terminal],
) -> Result<Option<Control>, AllocError>
    ensures { IfOk result (λ control. control ≡ while_of comma terminals.now) }
{
    let Some(rest) = behind_word(b"while", terminals) else {
        return Ok(None);
    };
    match whole_condition(alloc, rest)? {
        None => Ok(None),
        Some(condition) => Ok(Some(Control::While(comma, condition))),
    }
}

fn control_by(
    alloc: Global,
    comma: bool,
    terminals: &[Terminal],
) -> Result<Option<Control>, AllocError>
    ensures { IfOk result (λ control. control ≡ control_by comma terminals.now) }
{
    match while_of(alloc, comma, terminals)? {
        Some(control) => Ok(Some(control)),
        None => counted(alloc, comma, terminals),
    }
}

fn controlled(alloc: Global, terminals: &[Terminal]) -> Result<Option<Control>, AllocError>
    ensures { IfOk result (λ control. control ≡ controlled terminals.now) }
{
    if is_nil(terminals) {
        return Ok(Some(Control::Forever));
    }
    match behind(Punctuation::Comma, terminals) {
        Some(rest) => control_by(alloc, true, rest),
        None => control_by(alloc, false, terminals),
    }
}

fn boxed_control(
    alloc: Global,
    terminals: &[Terminal],
) -> Result<Option<Boxed<Control>>, AllocError>
    ensures { IfOk result (λ control. control ≡ controlled terminals.now) }
{
    match controlled(alloc, terminals)? {
        None => Ok(None),
        Some(control) => Ok(Some(Boxed::new(alloc, control)?)),
    }
}

pub fn do_of(
    alloc: Global,
    name: Option<SharedBytes>,
    terminals: &[Terminal],
) -> Result<Option<BlockForm>, AllocError>
    ensures { IfOk result (λ form. form ≡ do_of name terminals.now) }
{
    match boxed_control(alloc, terminals) {
        Ok(Some(control)) => Ok(Some(BlockForm::Do(name, control))),
        Ok(None) => {
            drop(name);
            Ok(None)
        }
        Err(error) => {
            drop(name);
            Err(error)
        }
    }
}

fn opened_by(
    alloc: Global,
    name: Option<SharedBytes>,
    word: BlockWord,
    terminals: &[Terminal],
) -> Result<Option<BlockForm>, AllocError>
    ensures { IfOk result (λ form. form ≡ opened_by name word terminals.now) }
{
    match word {
        BlockWord::If => if_block(alloc, name, terminals),
        BlockWord::Select => select_of(alloc, name, terminals),
        BlockWord::Do => do_of(alloc, name, terminals),
        _ => {
            drop(name);
            Ok(None)
        }
    }
}

/// IF, SELECT or DO behind a name and a colon.
pub fn labelled(
    alloc: Global,
    name: &SharedBytes,
    terminals: &[Terminal],
) -> Result<Option<BlockForm>, AllocError>
    ensures { IfOk result (λ form. form ≡ labelled name.now terminals.now) }
{
    let Some(keyed) = behind_keyword(terminals) else {
        return Ok(None);
    };
    match keyed.keyword {
        Keyword::Block(word) => {
            let name = name.share()?;
            opened_by(alloc, Some(name), word, keyed.rest)
        }
        _ => Ok(None),
    }
}

fn case_in(alloc: Global, terminals: &[Terminal]) -> Result<Option<BlockForm>, AllocError>
    ensures { IfOk result (λ form. form ≡ case_in terminals.now) }
{
    let Some(inside) = behind(Punctuation::Open, terminals) else {
        return Ok(None);
    };
    let Some(Closed { fields, rest }) = bracket(alloc, inside)? else {
        return Ok(None);
    };
    let Some(ranges) = collected(alloc, fields)? else {
        return Ok(None);
    };
    let ranges = Boxed::new(alloc, ranges)?;
    match name_at_end(rest) {
        Ok(Some(name)) => Ok(Some(BlockForm::Case(ranges, name))),
        Ok(None) => {
            drop(ranges);
            Ok(None)
        }
        Err(error) => {
            drop(ranges);
            Err(error)
        }
    }
}

pub fn case_of(alloc: Global, terminals: &[Terminal]) -> Result<Option<BlockForm>, AllocError>
    ensures { IfOk result (λ form. form ≡ case_of terminals.now) }
{
    let Some(rest) = behind_word(b"default", terminals) else {
        return case_in(alloc, terminals);
    };
    match name_at_end(rest)? {
        None => Ok(None),
        Some(name) => Ok(Some(BlockForm::CaseDefault(name))),
    }
}

fn else_if(alloc: Global, terminals: &[Terminal]) -> Result<Option<BlockForm>, AllocError>
    ensures { IfOk result (λ form. form ≡ else_if terminals.now) }
{
    let Some(Condition { expression, rest }) = conditioned(alloc, terminals)? else {
        return Ok(None);
    };
    let Some(end) = behind_word(b"then", rest) else {
        drop(expression);
        return Ok(None);
    };
    match name_at_end(end) {
        Ok(Some(name)) => Ok(Some(BlockForm::ElseIf(expression, name))),
        Ok(None) => {
            drop(expression);
            Ok(None)
        }
        Err(error) => {
            drop(expression);
            Err(error)
        }
    }
}

fn else_where(alloc: Global, terminals: &[Terminal]) -> Result<Option<BlockForm>, AllocError>
    ensures { IfOk result (λ form. form ≡ else_where terminals.now) }
{
    if is_nil(terminals) {
        return Ok(Some(BlockForm::ElseWhere(None)));
    }
    match whole_condition(alloc, terminals)? {
        None => Ok(None),
        Some(mask) => Ok(Some(BlockForm::ElseWhere(Some(mask)))),
    }
}

pub fn else_of(alloc: Global, terminals: &[Terminal]) -> Result<Option<BlockForm>, AllocError>
    ensures { IfOk result (λ form. form ≡ else_of terminals.now) }
{
    let Some(keyed) = behind_keyword(terminals) else {
        return match name_at_end(terminals)? {
            None => Ok(None),
            Some(name) => Ok(Some(BlockForm::Else(name))),
        };
    };
    match keyed.keyword {
        Keyword::Block(BlockWord::If) => else_if(alloc, keyed.rest),
        Keyword::Block(BlockWord::Where) => else_where(alloc, keyed.rest),
        _ => Ok(None),
    }
}

fn nothing_more(form: BlockForm, terminals: &[Terminal]) -> Option<BlockForm>
    ensures { result ≡ nothing_more form terminals.now }
{
    if is_nil(terminals) {
        Some(form)
    } else {
        drop(form);
        None
    }
}

pub fn end_block(word: BlockWord, terminals: &[Terminal]) -> Result<Option<BlockForm>, AllocError>
    ensures { IfOk result (λ form. form ≡ end_block word terminals.now) }
{
    match word {
        BlockWord::If => match name_at_end(terminals)? {
            None => Ok(None),
            Some(name) => Ok(Some(BlockForm::EndIf(name))),
        },
        BlockWord::Select => match name_at_end(terminals)? {
            None => Ok(None),
            Some(name) => Ok(Some(BlockForm::EndSelect(name))),
        },
        BlockWord::Do => match name_at_end(terminals)? {
            None => Ok(None),
            Some(name) => Ok(Some(BlockForm::EndDo(name))),
        },
        BlockWord::Where => Ok(nothing_more(BlockForm::EndWhere, terminals)),
        BlockWord::Forall => Ok(nothing_more(BlockForm::EndForall, terminals)),
    }
}
