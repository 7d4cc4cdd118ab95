//! Nested forms: what a list of forms, each with its line, nests to. Each form of the list stands at one place here.

use crate::action::{Action, Assignment, Header};
use crate::declaration::Declaration;
use crate::expression::Expression;
use crate::form::{CaseRange, Control, Procedure};
use crate::terminal::UnitWord;
use a95_base::{Line, SharedBytes};
use sqlite_items::{Boxed, Items};

#[derive(Drop)]
pub struct Source {
    pub modules: Items<Module>,
    pub main: Main,
}

#[derive(Drop)]
pub struct Module {
    pub line: Line,
    pub name: SharedBytes,
    pub section: Section,
    /// Where CONTAINS stands, with what follows it.
    pub procedures: Option<(Line, Items<Subprogram>)>,
    pub end: Ending,
}

#[derive(Drop)]
pub struct Main {
    /// The PROGRAM statement, which may be absent.
    pub opening: Option<(Line, SharedBytes)>,
    pub section: Section,
    pub body: Items<Statement>,
    pub procedures: Option<(Line, Items<Subprogram>)>,
    pub end: Ending,
}

#[derive(Drop)]
pub struct Subprogram {
    pub line: Line,
    pub procedure: Procedure,
    pub section: Section,
    pub body: Items<Statement>,
    pub end: Ending,
}

/// What stands before the statements of a unit.
#[derive(Drop)]
pub struct Section {
    /// USE with the names of ONLY.
    pub uses: Items<(Line, SharedBytes, Option<Items<SharedBytes>>)>,
    /// Where IMPLICIT NONE stands.
    pub implicit: Option<Line>,
    pub declarations: Items<(Line, Declaration)>,
}

/// The END of a unit or a block: the second word of a unit's, where it is written, and the name.
#[derive(Drop)]
pub struct Ending {
    pub line: Line,
    pub word: Option<UnitWord>,
    pub name: Option<SharedBytes>,
}

#[cycle(statement)]
#[derive(Drop)]
pub enum Statement {
    Action(Line, Action),
    /// `IF ( condition ) action`
    If(Line, Boxed<Expression>, Boxed<Action>),
    /// The IF statement with its name and condition, its body, each ELSE IF, ELSE, END IF.
    IfBlock(
        Line,
        Option<SharedBytes>,
        Boxed<Expression>,
        Items<Statement>,
        Items<Branch>,
        Option<Boxed<Otherwise>>,
        Ending,
    ),
    Select(Line, Option<SharedBytes>, Boxed<Expression>, Items<Case>, Ending),
    Do(Line, Option<SharedBytes>, Control, Items<Statement>, Ending),
    Where(WhereBlock),
    /// FORALL with its header, its assignments, and the line of END FORALL.
    Forall(Line, Header, Items<(Line, Assignment)>, Line),
}

/// ELSE IF with its body.
#[cycle(statement)]
#[derive(Drop)]
pub struct Branch {
    pub line: Line,
    pub condition: Expression,
    pub name: Option<SharedBytes>,
    pub body: Items<Statement>,
}

/// ELSE with its body.
#[cycle(statement)]
#[derive(Drop)]
pub struct Otherwise {
    pub line: Line,
    pub name: Option<SharedBytes>,
    pub body: Items<Statement>,
}

/// CASE with its body; no ranges stand for DEFAULT.
#[cycle(statement)]
#[derive(Drop)]
pub struct Case {
    pub line: Line,
    pub ranges: Option<Items<CaseRange>>,
    pub name: Option<SharedBytes>,
    pub body: Items<Statement>,
}

#[cycle(where_block)]
#[derive(Drop)]
pub struct WhereBlock {
    pub line: Line,
    pub mask: Expression,
    pub body: Items<WhereStatement>,
    pub others: Items<ElseWhere>,
    /// The line of END WHERE.
    pub end: Line,
}

/// ELSEWHERE, maybe with a mask.
#[cycle(where_block)]
#[derive(Drop)]
pub struct ElseWhere {
    pub line: Line,
    pub mask: Option<Expression>,
    pub body: Items<WhereStatement>,
}

#[cycle(where_block)]
#[derive(Drop)]
pub enum WhereStatement {
    Assignment(Line, Assignment),
    /// `WHERE ( mask ) assignment`
    Where(Line, Expression, Assignment),
    Block(Boxed<WhereBlock>),
}
