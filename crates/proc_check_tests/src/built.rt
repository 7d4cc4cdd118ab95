//! Typed units from short descriptions.

use a95_base::{Kind, Line, PhaseError, Scalar};
use f95_unit::{
    Access, Argument, Assign, BinaryOp, Bound, Bounds, Branch, Call, DeclaredType, Designator,
    Elemental, Entity, Expr, Facts, Node, Part, Procedure, Role, Span, Stmt, Subscript, Target,
    Unit,
};
use proc_check::match_calls;
use sqlite_items::{Boxed, Items};
use std::alloc::{AllocError, Global};
use std::test::Fail;

/// A value. Variables and procedures go by their numbers.
#[cycle(value)]
pub enum Value {
    /// The literal 1.
    One,
    /// `.TRUE.`
    Truth,
    /// An INTEGER variable of a rank.
    Whole(u32, u8),
    /// The first element of an INTEGER variable.
    Element(u32),
    /// All of a rank-one INTEGER variable, by a triplet.
    Section(u32),
    /// A rank-one INTEGER variable, subscripted by another one.
    Gathered(u32, u32),
    /// A CHARACTER variable, with its length where that is known.
    Text(u32, Option<u32>),
    /// The first byte of a CHARACTER variable.
    Byte(u32),
    /// `( e )`
    Bracketed(&'static Value),
    /// `e + f`
    Sum(&'static Value, &'static Value),
    /// ABS of a value.
    Absolute(&'static Value),
    /// A reference to a function, whose value is INTEGER and of a rank.
    Reference(u32, u8, &'static [Actual]),
}

/// A value with its place among the dummies.
#[cycle(value)]
pub struct Actual(pub u32, pub Value);

/// A statement, with its line.
pub enum Step {
    Call(u32, u32, &'static [Actual]),
    /// The first variable, which is an INTEGER scalar, is set.
    Set(u32, Value),
    Print(u32, &'static [Value]),
    Read(u32),
    Stop(u32),
    Return(u32),
    /// A DO with a variable.
    Do(u32, u32, &'static [Step]),
    If(u32, Value, &'static [Step]),
}

/// A declared variable, with its line, its type and its rank.
pub struct Variable(pub u32, pub DeclaredType, pub u8, pub Role);

pub enum Prefix {
    None,
    Recursive,
    Pure,
    Elemental,
    RecursiveElemental,
}

/// A procedure: its line, its prefixes, its variables, the number of its result, its statements.
pub struct Body(
    pub u32,
    pub Prefix,
    pub &'static [Variable],
    pub Option<u32>,
    pub &'static [Step],
);

/// The statements of a main program.
pub type Steps = &'static [Step];

/// The procedures of a unit.
pub type Bodies = &'static [Body];

fn facts(alloc: Global, kind: Kind, length: Option<u32>, rank: u8) -> Result<Facts, AllocError> {
    let mut extents = Items::new(alloc);
    for _place in 0..rank {
        extents.push(None)?;
    }
    Ok(Facts {
        kind,
        length,
        extents,
    })
}

fn with_facts(facts: Result<Facts, AllocError>, node: Node) -> Result<Expr, AllocError> {
    match facts {
        Ok(facts) => Ok(Expr { facts, node }),
        Err(error) => {
            drop(node);
            Err(error)
        }
    }
}

fn integer(alloc: Global, rank: u8, node: Node) -> Result<Expr, AllocError> {
    with_facts(facts(alloc, Kind::Int, None, rank), node)
}

fn named(variable: u32, access: Access, part: Part) -> Node {
    Node::Designator(Designator {
        variable,
        access,
        part,
    })
}

fn one(alloc: Global) -> Result<Expr, AllocError> {
    integer(alloc, 0, Node::Literal(Scalar::Int(1)))
}

fn at(alloc: Global, variable: u32, subscript: Subscript) -> Result<Node, AllocError> {
    let mut subscripts = Items::new(alloc);
    subscripts.push(subscript)?;
    Ok(named(variable, Access::At(subscripts), Part::All))
}

fn text(alloc: Global, length: Option<u32>, node: Node) -> Result<Expr, AllocError> {
    with_facts(facts(alloc, Kind::Text, length, 0), node)
}

fn element(alloc: Global, variable: u32) -> Result<Expr, AllocError> {
    let subscript = Subscript::One(Boxed::new(alloc, one(alloc)?)?);
    integer(alloc, 0, at(alloc, variable, subscript)?)
}

fn section(alloc: Global, variable: u32) -> Result<Expr, AllocError> {
    let subscript = Subscript::Triplet(Bound::Absent, Bound::Absent, Bound::Absent);
    integer(alloc, 1, at(alloc, variable, subscript)?)
}

fn gathered(alloc: Global, variable: u32, vector: u32) -> Result<Expr, AllocError> {
    let subscripts = integer(alloc, 1, named(vector, Access::Whole, Part::All))?;
    let subscript = Subscript::Vector(Boxed::new(alloc, subscripts)?);
    integer(alloc, 1, at(alloc, variable, subscript)?)
}

fn byte(alloc: Global, variable: u32) -> Result<Expr, AllocError> {
    let first = Boxed::new(alloc, one(alloc)?)?;
    let last = Boxed::new(alloc, one(alloc)?)?;
    let part = Part::Bytes(Bound::Given(first), Bound::Given(last));
    text(alloc, Some(1), named(variable, Access::Whole, part))
}

#[cycle(values)]
fn expression(alloc: Global, v: &Value) -> Result<Expr, AllocError> {
    match v {
        Value::One => one(alloc),
        Value::Truth => with_facts(
            facts(alloc, Kind::Log, None, 0),
            Node::Literal(Scalar::Log(true)),
        ),
        Value::Whole(n, rank) => integer(alloc, *rank, named(*n, Access::Whole, Part::All)),
        Value::Element(n) => element(alloc, *n),
        Value::Section(n) => section(alloc, *n),
        Value::Gathered(n, vector) => gathered(alloc, *n, *vector),
        Value::Text(n, length) => text(alloc, *length, named(*n, Access::Whole, Part::All)),
        Value::Byte(n) => byte(alloc, *n),
        Value::Bracketed(inner) => integer(alloc, 0, Node::Brackets(boxed(alloc, inner)?)),
        Value::Sum(left, right) => {
            let left = boxed(alloc, left)?;
            let right = boxed(alloc, right)?;
            integer(alloc, 0, Node::Binary(BinaryOp::Add, left, right))
        }
        Value::Absolute(inner) => absolute(alloc, inner),
        Value::Reference(p, rank, actuals) => {
            let call = call(alloc, *p, actuals)?;
            integer(alloc, *rank, Node::Call(call))
        }
    }
}

#[cycle(values)]
fn boxed(alloc: Global, inner: &Value) -> Result<Boxed<Expr>, AllocError> {
    Ok(Boxed::new(alloc, expression(alloc, inner)?)?)
}

#[cycle(values)]
fn absolute(alloc: Global, inner: &Value) -> Result<Expr, AllocError> {
    let mut arguments = Items::new(alloc);
    arguments.push(Argument {
        place: 0,
        value: expression(alloc, inner)?,
    })?;
    integer(alloc, 0, Node::Elemental(Elemental::Abs, arguments))
}

#[cycle(values)]
fn call(alloc: Global, procedure: u32, actuals: &[Actual]) -> Result<Call, AllocError> {
    let mut arguments = Items::new(alloc);
    for a in actuals {
        arguments.push(Argument {
            place: a.0,
            value: expression(alloc, &a.1)?,
        })?;
    }
    Ok(Call {
        procedure,
        arguments,
    })
}

fn values(alloc: Global, vs: &[Value]) -> Result<Items<Expr>, AllocError> {
    let mut items = Items::new(alloc);
    for v in vs {
        items.push(expression(alloc, v)?)?;
    }
    Ok(items)
}

fn set(alloc: Global, line: u32, v: &Value) -> Result<Stmt, AllocError> {
    let value = expression(alloc, v)?;
    match facts(alloc, Kind::Int, None, 0) {
        Ok(facts) => {
            let designator = Designator {
                variable: 0,
                access: Access::Whole,
                part: Part::All,
            };
            Ok(Stmt::Assign(Assign {
                line: Line(line),
                target: Target { facts, designator },
                value,
            }))
        }
        Err(error) => {
            drop(value);
            Err(error)
        }
    }
}

fn choice(alloc: Global, line: u32, v: &Value, body: Items<Stmt>) -> Result<Stmt, AllocError> {
    let condition = expression(alloc, v)?;
    let mut branches = Items::new(alloc);
    branches.push(Branch {
        line: Line(line),
        condition,
        body,
    })?;
    Ok(Stmt::If(branches, Items::new(alloc)))
}

#[cycle(steps)]
fn statement(alloc: Global, s: &Step) -> Result<Stmt, AllocError> {
    match s {
        Step::Call(line, p, actuals) => Ok(Stmt::Call(Line(*line), call(alloc, *p, actuals)?)),
        Step::Set(line, v) => set(alloc, *line, v),
        Step::Print(line, vs) => Ok(Stmt::Print(Line(*line), values(alloc, vs)?)),
        Step::Read(line) => Ok(Stmt::Read(Line(*line), Items::new(alloc))),
        Step::Stop(line) => Ok(Stmt::Stop(Line(*line))),
        Step::Return(line) => Ok(Stmt::Return(Line(*line))),
        Step::Do(line, variable, body) => turns(alloc, *line, *variable, body),
        Step::If(line, v, body) => choice(alloc, *line, v, statements(alloc, body)?),
    }
}

#[cycle(steps)]
fn turns(alloc: Global, line: u32, variable: u32, body: &[Step]) -> Result<Stmt, AllocError> {
    let body = statements(alloc, body)?;
    let first = one(alloc)?;
    match one(alloc) {
        Ok(last) => Ok(Stmt::Do(Line(line), variable, first, last, Bound::Absent, body)),
        Err(error) => {
            drop(first);
            Err(error)
        }
    }
}

#[cycle(steps)]
fn statements(alloc: Global, body: &[Step]) -> Result<Items<Stmt>, AllocError> {
    let mut items = Items::new(alloc);
    for s in body {
        items.push(statement(alloc, s)?)?;
    }
    Ok(items)
}

fn bounds(alloc: Global, rank: u8) -> Result<Bounds, AllocError> {
    if rank == 0 {
        return Ok(Bounds::None);
    }
    let mut spans = Items::new(alloc);
    for _place in 0..rank {
        let upper = one(alloc)?;
        spans.push(Span {
            lower: Bound::Absent,
            upper,
        })?;
    }
    Ok(Bounds::Explicit(spans))
}

fn entities(alloc: Global, variables: &[Variable]) -> Result<Items<Entity>, AllocError> {
    let mut items = Items::new(alloc);
    for v in variables {
        items.push(Entity {
            line: Line(v.0),
            of: v.1,
            bounds: bounds(alloc, v.2)?,
            role: v.3,
            initial: None,
        })?;
    }
    Ok(items)
}

fn procedure(alloc: Global, b: &Body) -> Result<Procedure, AllocError> {
    let entities = entities(alloc, b.2)?;
    let body = statements(alloc, b.4)?;
    Ok(Procedure {
        line: Line(b.0),
        recursive: matches!(&b.1, Prefix::Recursive | Prefix::RecursiveElemental),
        pure: matches!(&b.1, Prefix::Pure),
        elemental: matches!(&b.1, Prefix::Elemental | Prefix::RecursiveElemental),
        entities,
        result: b.3,
        body,
    })
}

fn main_program(
    alloc: Global,
    variables: &[Variable],
    main: &[Step],
) -> Result<Procedure, AllocError> {
    let entities = entities(alloc, variables)?;
    let body = statements(alloc, main)?;
    Ok(Procedure {
        line: Line(1),
        recursive: false,
        pure: false,
        elemental: false,
        entities,
        result: None,
        body,
    })
}

fn unit_of(
    alloc: Global,
    variables: &[Variable],
    main: &[Step],
    bodies: &[Body],
) -> Result<Unit, AllocError> {
    let mut procedures = Items::new(alloc);
    for b in bodies {
        procedures.push(procedure(alloc, b)?)?;
    }
    let main = main_program(alloc, variables, main)?;
    Ok(Unit {
        constants: Items::new(alloc),
        main,
        procedures,
    })
}

/// The line and the rule of the refusal, or None.
pub type Told = Option<(u32, u8)>;

fn refusal_of(
    alloc: Global,
    variables: &[Variable],
    main: &[Step],
    bodies: &[Body],
) -> Result<Told, Fail> {
    let Ok(unit) = unit_of(alloc, variables, main, bodies) else {
        return Err(Fail::new("out of memory"));
    };
    let answer = match_calls(alloc, &unit);
    drop(unit);
    match answer {
        Ok(()) => Ok(None),
        Err(PhaseError::Broken { line, rule }) => Ok(Some((line.0, rule.0))),
        Err(PhaseError::Memory) => Err(Fail::new("out of memory")),
    }
}

/// The first main program over these variables and procedures, by its place, that comes out wrong.
pub fn first_wrong(
    alloc: Global,
    variables: &[Variable],
    bodies: &[Body],
    rows: &[(Steps, Told)],
) -> Result<Option<usize>, Fail> {
    for (place, row) in rows.iter().enumerate() {
        if refusal_of(alloc, variables, row.0, bodies)? != row.1 {
            return Ok(Some(place));
        }
    }
    Ok(None)
}

/// The first procedures, by their place, that come out wrong beside a main program without statements.
pub fn first_wrong_of(alloc: Global, rows: &[(Bodies, Told)]) -> Result<Option<usize>, Fail> {
    for (place, row) in rows.iter().enumerate() {
        if refusal_of(alloc, &[], &[], row.0)? != row.1 {
            return Ok(Some(place));
        }
    }
    Ok(None)
}
