//! All forms, as `specs/Reading` says.

ghost use Rattle.std.specs.Prelude.{◌≡◌, [], ◌∷◌, IfOk, option_map, option_and_then};
ghost use Rattle.f95_parts.specs.Views.{nothing_more, behind_name, at_end};
ghost use Rattle.f95_statements.specs.Actions.{action_of};
ghost use Rattle.f95_statements.specs.Declarations.{procedure_of};
ghost use Rattle.f95_parser.specs.Reading.{end_keyed, end_of, only_of, use_named, use_of, implicit_of, unit_by, if_by, where_by};
ghost use Rattle.f95_parser.specs.Reading.{forall_by, block_form, keyed_form, label_of, named_form, form_of};

use crate::block::{case_of, do_of, else_of, end_block, is_then, labelled, select_of};
use a95_base::SharedBytes;
use f95_parts::{Keyed, Named, behind, behind_keyword, behind_name, behind_word, is_nil};
use f95_statements::{
    Condition, HeaderAt, action_of, assigned, conditioned, headed, listed, name_at_end,
    procedure_of, type_of, typed_form,
};
use f95_tree::{
    Action, BlockForm, BlockWord, Form, Keyword, Punctuation, Terminal, UnitForm, UnitWord,
};
use sqlite_items::{Boxed, Items};
use std::alloc::{AllocError, Global};

fn end_keyed(keyed: Keyed<'_>) -> Result<Option<Form>, AllocError>
    ensures { IfOk result (λ form. form ≡ end_keyed (keyed.entry.keyword, keyed.entry.rest.now)) }
{
    let Keyed { keyword, rest } = keyed;
    match keyword {
        Keyword::Unit(word) => match name_at_end(rest)? {
            None => Ok(None),
            Some(name) => Ok(Some(Form::Unit(UnitForm::EndUnit(word, name)))),
        },
        Keyword::Block(word) => match end_block(word, rest)? {
            None => Ok(None),
            Some(form) => Ok(Some(Form::Block(form))),
        },
        _ => Ok(None),
    }
}

fn end_of(terminals: &[Terminal]) -> Result<Option<Form>, AllocError>
    ensures { IfOk result (λ form. form ≡ end_of terminals.now) }
{
    if is_nil(terminals) {
        return Ok(Some(Form::Unit(UnitForm::End)));
    }
    match behind_keyword(terminals) {
        None => Ok(None),
        Some(keyed) => end_keyed(keyed),
    }
}

/// The names behind ONLY.
fn only_of(
    alloc: Global,
    terminals: &[Terminal],
) -> Result<Option<Boxed<Items<SharedBytes>>>, AllocError>
    ensures { IfOk result (λ names. names ≡ only_of terminals.now) }
{
    let Some(word) = behind(Punctuation::Comma, terminals) else {
        return Ok(None);
    };
    let Some(colon) = behind_word(b"only", word) else {
        return Ok(None);
    };
    match behind(Punctuation::Colon, colon) {
        None => Ok(None),
        Some(rest) => match listed(alloc, rest)? {
            None => Ok(None),
            Some(names) => Ok(Some(Boxed::new(alloc, names)?)),
        },
    }
}

fn use_named(alloc: Global, named: Named<'_>) -> Result<Option<UnitForm>, AllocError>
    ensures { IfOk result (λ form. form ≡ use_named (named.entry.name.now, named.entry.rest.now)) }
{
    let name = named.name.share()?;
    if is_nil(named.rest) {
        return Ok(Some(UnitForm::Use(name, None)));
    }
    match only_of(alloc, named.rest) {
        Ok(Some(names)) => Ok(Some(UnitForm::Use(name, Some(names)))),
        Ok(None) => {
            drop(name);
            Ok(None)
        }
        Err(error) => {
            drop(name);
            Err(error)
        }
    }
}

fn use_of(alloc: Global, terminals: &[Terminal]) -> Result<Option<UnitForm>, AllocError>
    ensures { IfOk result (λ form. form ≡ use_of terminals.now) }
{
    match behind_name(terminals) {
        None => Ok(None),
        Some(named) => use_named(alloc, named),
    }
}

fn implicit_of(terminals: &[Terminal]) -> Option<UnitForm>
    ensures { result ≡ implicit_of terminals.now }
{
    let rest = behind_word(b"none", terminals)?;
    if is_nil(rest) {
        Some(UnitForm::ImplicitNone)
    } else {
        None
    }
}

/// A name with nothing behind it.
fn only_name(terminals: &[Terminal]) -> Result<Option<SharedBytes>, AllocError>
    ensures { IfOk result (λ name. name ≡ option_and_then at_end (behind_name terminals.now)) }
{
    let Some(named) = behind_name(terminals) else {
        return Ok(None);
    };
    if is_nil(named.rest) {
        let name = named.name.share()?;
        Ok(Some(name))
    } else {
        Ok(None)
    }
}

fn unit_by(
    alloc: Global,
    word: UnitWord,
    rest: &[Terminal],
    all: &[Terminal],
) -> Result<Option<UnitForm>, AllocError>
    ensures { IfOk result (λ form. form ≡ unit_by word rest.now all.now) }
{
    match word {
        UnitWord::Program => match only_name(rest)? {
            None => Ok(None),
            Some(name) => Ok(Some(UnitForm::Program(name))),
        },
        UnitWord::Module => match only_name(rest)? {
            None => Ok(None),
            Some(name) => Ok(Some(UnitForm::Module(name))),
        },
        _ => match procedure_of(alloc, all)? {
            None => Ok(None),
            Some(procedure) => Ok(Some(UnitForm::Procedure(Boxed::new(alloc, procedure)?))),
        },
    }
}

fn if_by(alloc: Global, condition: Condition<'_>) -> Result<Option<Form>, AllocError>
    ensures { IfOk result (λ form. form ≡ if_by (condition.entry.expression, condition.entry.rest.now)) }
{
    let Condition { expression, rest } = condition;
    if is_then(rest) {
        return Ok(Some(Form::Block(BlockForm::If(None, expression))));
    }
    match action_of(alloc, rest) {
        Ok(Some(action)) => match Boxed::new(alloc, action) {
            Ok(action) => Ok(Some(Form::If(expression, action))),
            Err(error) => {
                drop(expression);
                Err(error)
            }
        },
        Ok(None) => {
            drop(expression);
            Ok(None)
        }
        Err(error) => {
            drop(expression);
            Err(error)
        }
    }
}

fn where_by(alloc: Global, condition: Condition<'_>) -> Result<Option<Form>, AllocError>
    ensures { IfOk result (λ form. form ≡ where_by (condition.entry.expression, condition.entry.rest.now)) }
{
    let Condition { expression, rest } = condition;
    if is_nil(rest) {
        return Ok(Some(Form::Block(BlockForm::Where(expression))));
    }
    match assigned(alloc, rest) {
        Ok(Some(assignment)) => Ok(Some(Form::Action(Action::Where(expression, assignment)))),
        Ok(None) => {
            drop(expression);
            Ok(None)
        }
        Err(error) => {
            drop(expression);
            Err(error)
        }
    }
}

fn forall_by(alloc: Global, headed: HeaderAt<'_>) -> Result<Option<Form>, AllocError>
    ensures { IfOk result (λ form. form ≡ forall_by (headed.entry.header, headed.entry.rest.now)) }
{
    let HeaderAt { header, rest } = headed;
    if is_nil(rest) {
        return Ok(Some(Form::Block(BlockForm::Forall(header))));
    }
    match assigned(alloc, rest) {
        Ok(Some(assignment)) => Ok(Some(Form::Action(Action::Forall(header, assignment)))),
        Ok(None) => {
            drop(header);
            Ok(None)
        }
        Err(error) => {
            drop(header);
            Err(error)
        }
    }
}

fn as_block(form: Option<BlockForm>) -> Option<Form>
    ensures { result ≡ option_map Form.Block form }
{
    Some(Form::Block(form?))
}

fn as_unit(form: Option<UnitForm>) -> Option<Form>
    ensures { result ≡ option_map Form.Unit form }
{
    Some(Form::Unit(form?))
}

fn block_form(
    alloc: Global,
    word: BlockWord,
    terminals: &[Terminal],
) -> Result<Option<Form>, AllocError>
    ensures { IfOk result (λ form. form ≡ block_form word terminals.now) }
{
    match word {
        BlockWord::If => match conditioned(alloc, terminals)? {
            None => Ok(None),
            Some(condition) => if_by(alloc, condition),
        },
        BlockWord::Select => Ok(as_block(select_of(alloc, None, terminals)?)),
        BlockWord::Do => Ok(as_block(do_of(alloc, None, terminals)?)),
        BlockWord::Where => match conditioned(alloc, terminals)? {
            None => Ok(None),
            Some(condition) => where_by(alloc, condition),
        },
        BlockWord::Forall => match headed(alloc, terminals)? {
            None => Ok(None),
            Some(header) => forall_by(alloc, header),
        },
    }
}

fn procedure_form(alloc: Global, all: &[Terminal]) -> Result<Option<Form>, AllocError>
    ensures { IfOk result (λ form. form ≡ option_map (λ p. Form.Unit (UnitForm.Procedure p)) (procedure_of all.now)) }
{
    match procedure_of(alloc, all)? {
        None => Ok(None),
        Some(procedure) => {
            let procedure = Boxed::new(alloc, procedure)?;
            Ok(Some(Form::Unit(UnitForm::Procedure(procedure))))
        }
    }
}

fn action_form(alloc: Global, all: &[Terminal]) -> Result<Option<Form>, AllocError>
    ensures { IfOk result (λ form. form ≡ option_map Form.Action (action_of all.now)) }
{
    match action_of(alloc, all)? {
        None => Ok(None),
        Some(action) => Ok(Some(Form::Action(action))),
    }
}

fn contains_form(rest: &[Terminal]) -> Option<Form>
    ensures { result ≡ nothing_more (Form.Unit UnitForm.Contains) rest.now }
{
    if is_nil(rest) {
        Some(Form::Unit(UnitForm::Contains))
    } else {
        None
    }
}

/// The form that begins with a keyword, by what stands behind it and by the whole.
fn keyed_form(
    alloc: Global,
    keyword: Keyword,
    rest: &[Terminal],
    all: &[Terminal],
) -> Result<Option<Form>, AllocError>
    ensures { IfOk result (λ form. form ≡ keyed_form keyword rest.now all.now) }
{
    match keyword {
        Keyword::Unit(word) => Ok(as_unit(unit_by(alloc, word, rest, all)?)),
        Keyword::Type(word) => match type_of(alloc, word, rest)? {
            None => Ok(None),
            Some(typed) => typed_form(alloc, typed),
        },
        Keyword::Prefix(_) => procedure_form(alloc, all),
        Keyword::Block(word) => block_form(alloc, word, rest),
        Keyword::Action(_) => action_form(alloc, all),
        Keyword::Case => Ok(as_block(case_of(alloc, rest)?)),
        Keyword::Contains => Ok(contains_form(rest)),
        Keyword::Else => Ok(as_block(else_of(alloc, rest)?)),
        Keyword::End => end_of(rest),
        Keyword::Implicit => Ok(as_unit(implicit_of(rest))),
        Keyword::Use => Ok(as_unit(use_of(alloc, rest)?)),
    }
}

/// A name, and what stands behind it and a colon.
fn label_of(terminals: &[Terminal]) -> Option<Named<'_>>
    ensures { option_map (λ n. (n.name.now, n.rest.now)) result ≡ label_of terminals.now }
{
    let named = behind_name(terminals)?;
    let rest = behind(Punctuation::Colon, named.rest)?;
    Some(Named {
        name: named.name,
        rest,
    })
}

fn named_form(alloc: Global, terminals: &[Terminal]) -> Result<Option<Form>, AllocError>
    ensures { IfOk result (λ form. form ≡ named_form (label_of terminals.now) terminals.now) }
{
    match label_of(terminals) {
        Some(label) => Ok(as_block(labelled(alloc, label.name, label.rest)?)),
        None => match assigned(alloc, terminals)? {
            None => Ok(None),
            Some(assignment) => Ok(Some(Form::Action(Action::Assignment(assignment)))),
        },
    }
}

/// The form that all these terminals are, if they are of one.
pub fn form_of(alloc: Global, terminals: &[Terminal]) -> Result<Option<Form>, AllocError>
    ensures { IfOk result (λ form. form ≡ form_of terminals.now) }
{
    match behind_keyword(terminals) {
        Some(keyed) => keyed_form(alloc, keyed.keyword, keyed.rest, terminals),
        None => named_form(alloc, terminals),
    }
}
