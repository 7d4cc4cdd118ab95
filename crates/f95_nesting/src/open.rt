//! What has been read of a source that isn't ended: the modules before, and the unit and the blocks that are open, each with what
//! stands before it.

use a95_base::{Line, SharedBytes, Stack};
use f95_tree::{
    Assignment, Branch, Case, CaseRange, Control, ElseWhere, Expression, Header, Module, Procedure,
    Section, Source, Statement, Subprogram, WhereStatement,
};
use sqlite_items::{Boxed, Items};

/// IF
#[derive(Drop)]
pub struct IfHead {
    pub line: Line,
    pub name: Option<SharedBytes>,
    pub condition: Boxed<Expression>,
}

/// ELSE IF
#[derive(Drop)]
pub struct BranchHead {
    pub line: Line,
    pub condition: Expression,
    pub name: Option<SharedBytes>,
}

/// SELECT CASE
#[derive(Drop)]
pub struct SelectHead {
    pub line: Line,
    pub name: Option<SharedBytes>,
    pub selector: Boxed<Expression>,
}

/// CASE, without ranges CASE DEFAULT
#[derive(Drop)]
pub struct CaseHead {
    pub line: Line,
    pub ranges: Option<Items<CaseRange>>,
    pub name: Option<SharedBytes>,
}

/// DO
#[derive(Drop)]
pub struct DoHead {
    pub line: Line,
    pub name: Option<SharedBytes>,
    pub control: Control,
}

/// A block whose statements are read, with the parts before these.
#[derive(Drop)]
pub enum Block {
    If(IfHead),
    /// Behind ELSE IF: the body of IF, and the ELSE IFs before.
    ElseIf(IfHead, Items<Statement>, Items<Branch>, BranchHead),
    /// Behind ELSE.
    Else(IfHead, Items<Statement>, Items<Branch>, Line, Option<SharedBytes>),
    /// Behind CASE: the CASEs before.
    Case(SelectHead, Items<Case>, CaseHead),
    Do(DoHead),
}

/// A block that is open, and the statements before it.
#[derive(Drop)]
pub struct Frame {
    pub before: Items<Statement>,
    pub block: Block,
}

/// Which statements of WHERE are read.
#[derive(Drop)]
pub enum WherePart {
    First,
    /// Those behind ELSEWHERE: the first ones, the ELSEWHEREs before, its line and its mask.
    Behind(Items<WhereStatement>, Items<ElseWhere>, Line, Option<Expression>),
}

/// A WHERE block that is open, and the statements of its part so far.
#[derive(Drop)]
pub struct WhereFrame {
    pub line: Line,
    pub mask: Expression,
    pub part: WherePart,
    pub done: Items<WhereStatement>,
}

/// What is read inside all blocks of a frame.
#[derive(Drop)]
pub enum Inner {
    Statements(Items<Statement>),
    /// SELECT CASE before its first CASE, and the statements before it.
    Select(Items<Statement>, SelectHead),
    /// WHERE: the statements before, the WHERE blocks around, and the innermost one.
    Where(Items<Statement>, Stack<WhereFrame>, WhereFrame),
    /// FORALL: the statements before, its line, its header and its assignments so far.
    Forall(Items<Statement>, Line, Header, Items<(Line, Assignment)>),
}

/// The statements of a unit so far.
#[derive(Drop)]
pub struct Body {
    pub outer: Stack<Frame>,
    pub inner: Inner,
}

/// A module or a main program whose procedures are read: what stands before CONTAINS, its line, and the procedures so far.
#[derive(Drop)]
pub enum Host {
    Module(Line, SharedBytes, Section, Line, Items<Subprogram>),
    Main(Option<(Line, SharedBytes)>, Section, Items<Statement>, Line, Items<Subprogram>),
}

/// What is open behind the modules that are ended.
#[derive(Drop)]
pub enum Place {
    /// Nothing.
    Start,
    Module(Line, SharedBytes, Section),
    Main(Option<(Line, SharedBytes)>, Section, Body),
    /// Behind CONTAINS or the end of a procedure.
    Contains(Host),
    Procedure(Host, Line, Procedure, Section, Body),
}

#[derive(Drop)]
pub enum State {
    Goes(Items<Module>, Place),
    /// The main program is ended.
    Ended(Source),
    /// The statements begin no nesting.
    Stops,
}
