//! What a form is to the block that it stands in. A form is taken apart here, where nothing else is held.

ghost use Rattle.std.specs.Prelude.{◌≡◌};
ghost use Rattle.f95_nesting.specs.Roles.{body_form, opening_form, if_part, end_of_if, select_part, select_form, end_of_do};
ghost use Rattle.f95_nesting.specs.Roles.{is_end_where, end_where_if, where_part, where_action, where_form, is_end_forall};
ghost use Rattle.f95_nesting.specs.Roles.{forall_part, forall_action, forall_form};

use a95_base::SharedBytes;
use f95_tree::{Action, Assignment, BlockForm, CaseRange, Control, Expression, Form, Header};
use sqlite_items::{Boxed, Items};

/// A form that may stand among statements.
#[derive(Drop)]
pub enum BodyForm {
    Action(Action),
    /// `IF ( condition ) action`
    If(Boxed<Expression>, Boxed<Action>),
    Block(BlockForm),
}

/// What begins a block.
#[derive(Drop)]
pub enum Opening {
    If(Option<SharedBytes>, Boxed<Expression>),
    Select(Option<SharedBytes>, Boxed<Expression>),
    Do(Option<SharedBytes>, Control),
    Where(Expression),
    Forall(Header),
}

/// What parts or ends IF.
#[derive(Drop)]
pub enum IfPart {
    ElseIf(Expression, Option<SharedBytes>),
    Else(Option<SharedBytes>),
    End(Option<SharedBytes>),
}

/// What parts or ends SELECT CASE. CASE without ranges is CASE DEFAULT.
#[derive(Drop)]
pub enum SelectPart {
    Case(Option<Items<CaseRange>>, Option<SharedBytes>),
    End(Option<SharedBytes>),
}

/// What may stand in WHERE.
#[derive(Drop)]
pub enum WhereForm {
    Assignment(Assignment),
    /// `WHERE ( mask ) assignment`
    Masked(Expression, Assignment),
    Begin(Expression),
    Else(Option<Expression>),
    End,
}

/// What may stand in FORALL.
#[derive(Drop)]
pub enum ForallForm {
    Assignment(Assignment),
    End,
}

/// The form, if it may stand among statements.
pub fn body_form(form: Form) -> Option<BodyForm>
    ensures { result ≡ body_form form }
{
    match form {
        Form::Action(action) => Some(BodyForm::Action(action)),
        Form::If(condition, action) => Some(BodyForm::If(condition, action)),
        Form::Block(block) => Some(BodyForm::Block(block)),
        other => {
            drop(other);
            None
        }
    }
}

/// What begins a block, or else the form as it is.
pub fn opening_form(form: BlockForm) -> Result<Opening, BlockForm>
    ensures { result ≡ opening_form form }
{
    match form {
        BlockForm::If(name, condition) => Ok(Opening::If(name, condition)),
        BlockForm::Select(name, selector) => Ok(Opening::Select(name, selector)),
        BlockForm::Do(name, control) => Ok(Opening::Do(name, control.into_inner())),
        BlockForm::Where(mask) => Ok(Opening::Where(mask.into_inner())),
        BlockForm::Forall(header) => Ok(Opening::Forall(header.into_inner())),
        other => Err(other),
    }
}

pub fn if_part(form: BlockForm) -> Option<IfPart>
    ensures { result ≡ if_part form }
{
    match form {
        BlockForm::ElseIf(condition, name) => Some(IfPart::ElseIf(condition.into_inner(), name)),
        BlockForm::Else(name) => Some(IfPart::Else(name)),
        BlockForm::EndIf(name) => Some(IfPart::End(name)),
        other => {
            drop(other);
            None
        }
    }
}

/// The name at END IF.
pub fn end_of_if(form: BlockForm) -> Option<Option<SharedBytes>>
    ensures { result ≡ end_of_if form }
{
    match form {
        BlockForm::EndIf(name) => Some(name),
        other => {
            drop(other);
            None
        }
    }
}

pub fn select_part(form: BlockForm) -> Option<SelectPart>
    ensures { result ≡ select_part form }
{
    match form {
        BlockForm::Case(ranges, name) => Some(SelectPart::Case(Some(ranges.into_inner()), name)),
        BlockForm::CaseDefault(name) => Some(SelectPart::Case(None, name)),
        BlockForm::EndSelect(name) => Some(SelectPart::End(name)),
        other => {
            drop(other);
            None
        }
    }
}

pub fn select_form(form: Form) -> Option<SelectPart>
    ensures { result ≡ select_form form }
{
    match form {
        Form::Block(block) => select_part(block),
        other => {
            drop(other);
            None
        }
    }
}

/// The name at END DO.
pub fn end_of_do(form: BlockForm) -> Option<Option<SharedBytes>>
    ensures { result ≡ end_of_do form }
{
    match form {
        BlockForm::EndDo(name) => Some(name),
        other => {
            drop(other);
            None
        }
    }
}

fn is_end_where(form: &BlockForm) -> bool
    ensures { result ≡ is_end_where form.now }
{
    match form {
        BlockForm::EndWhere => true,
        _ => false,
    }
}

/// END WHERE, if it is that.
fn end_of_where(form: BlockForm) -> Option<WhereForm>
    ensures { result ≡ end_where_if (is_end_where form) }
{
    let ends = is_end_where(&form);
    drop(form);
    if ends {
        return Some(WhereForm::End);
    }
    None
}

fn unboxed(expression: Option<Boxed<Expression>>) -> Option<Expression>
    ensures { result ≡ expression }
{
    match expression {
        None => None,
        Some(expression) => Some(expression.into_inner()),
    }
}

fn where_part(form: BlockForm) -> Option<WhereForm>
    ensures { result ≡ where_part form }
{
    match form {
        BlockForm::Where(mask) => Some(WhereForm::Begin(mask.into_inner())),
        BlockForm::ElseWhere(mask) => Some(WhereForm::Else(unboxed(mask))),
        other => end_of_where(other),
    }
}

fn where_action(action: Action) -> Option<WhereForm>
    ensures { result ≡ where_action action }
{
    match action {
        Action::Assignment(assignment) => Some(WhereForm::Assignment(assignment.into_inner())),
        Action::Where(mask, assignment) => Some(WhereForm::Masked(
            mask.into_inner(),
            assignment.into_inner(),
        )),
        other => {
            drop(other);
            None
        }
    }
}

pub fn where_form(form: Form) -> Option<WhereForm>
    ensures { result ≡ where_form form }
{
    match form {
        Form::Action(action) => where_action(action),
        Form::Block(block) => where_part(block),
        other => {
            drop(other);
            None
        }
    }
}

fn is_end_forall(form: &BlockForm) -> bool
    ensures { result ≡ is_end_forall form.now }
{
    match form {
        BlockForm::EndForall => true,
        _ => false,
    }
}

/// END FORALL, if it is that.
fn forall_part(form: BlockForm) -> Option<ForallForm>
    ensures { result ≡ forall_part form }
{
    let ends = is_end_forall(&form);
    drop(form);
    if ends {
        return Some(ForallForm::End);
    }
    None
}

fn forall_action(action: Action) -> Option<ForallForm>
    ensures { result ≡ forall_action action }
{
    match action {
        Action::Assignment(assignment) => Some(ForallForm::Assignment(assignment.into_inner())),
        other => {
            drop(other);
            None
        }
    }
}

pub fn forall_form(form: Form) -> Option<ForallForm>
    ensures { result ≡ forall_form form }
{
    match form {
        Form::Action(action) => forall_action(action),
        Form::Block(block) => forall_part(block),
        other => {
            drop(other);
            None
        }
    }
}
