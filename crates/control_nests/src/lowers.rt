//! Whether a unit is lowered so far.
ghost use Rattle.std.specs.Prelude.{◌≡◌, map, option_map, is_some};
ghost use Rattle.std.specs.List.{list_all};
ghost use Rattle.f95_unit.specs.View.{expr_of, bound_of, designator_of, assign_of, stmt_of, bounds_of, entity_of, procedure_of};
ghost use Rattle.f95_unit.specs.View.{program_of};
ghost use Rattle.proc_calls.specs.View.{arguments_of, stmts_of, branches_of, cases_of};
ghost use Rattle.control_lower.specs.Trees.{sort_of_own};
ghost use Rattle.control_lower.specs.Lowers as definition;

use f95_unit::{
    Access, Argument, Assign, Bound, Bounds, Branch, Case, DeclaredType, Designator, Elemental,
    Entity, Expr, Inquiry, Length, Node, Part, Procedure, Role, Stmt, Subject, Unit,
};

/// A whole variable.
fn lowers_designator(d: &Designator) -> bool
    ensures { result ≡ definition.lowers_designator (designator_of d.now) }
{
    match &d.access {
        Access::Whole => match &d.part {
            Part::All => true,
            Part::Bytes(..) => false,
        },
        Access::At(_) => false,
    }
}

fn counts_bytes(which: Elemental) -> bool
    ensures { result ≡ definition.counts_bytes which }
{
    match which {
        Elemental::Ichar | Elemental::LenTrim | Elemental::Index => true,
        _ => false,
    }
}

#[cycle(expressions)]
fn lowers(e: &Expr) -> bool
    ensures { result ≡ definition.lowers (expr_of e.now) }
{
    match &e.node {
        Node::Literal(_) | Node::Constant(_) => true,
        Node::Designator(d) => lowers_designator(d),
        Node::Brackets(inner) => lowers(inner.get()),
        Node::Unary(_, inner) => lowers(inner.get()),
        Node::Binary(_, left, right) => lowers(left.get()) && lowers(right.get()),
        Node::Elemental(which, es) => !counts_bytes(*which) && lowers_all(es.as_slice()),
        Node::Trim(inner) => lowers(inner.get()),
        Node::Inquiry(Inquiry::Len, _, Subject::Name(_)) => true,
        Node::Inquiry(..)
        | Node::Index(_)
        | Node::Constructor(_)
        | Node::Reduction(..)
        | Node::Rearranging(..)
        | Node::Call(_) => false,
    }
}

#[cycle(expressions)]
fn lowers_all(es: &[Argument]) -> bool
    ensures { result ≡ definition.lowers_all (arguments_of es.now) }
{
    let mut all = true;
    for a in es {
        all = all && lowers(&a.value);
    }
    all
}

fn lowers_bound(b: &Bound) -> bool
    ensures { result ≡ definition.lowers_bound (bound_of b.now) }
{
    match b {
        Bound::Absent => true,
        Bound::Given(e) => lowers(e.get()),
    }
}

fn lowers_option(e: &Option<Expr>) -> bool
    ensures { result ≡ definition.lowers_initial (option_map expr_of e.now) }
{
    match e {
        None => true,
        Some(e) => lowers(e),
    }
}

fn lowers_assign(a: &Assign) -> bool
    ensures { result ≡ definition.lowers_assign (assign_of a.now) }
{
    lowers_designator(&a.target.designator) && lowers(&a.value)
}

fn lowers_items(es: &[Expr]) -> bool
    ensures { result ≡ list_all definition.lowers (map expr_of es.now) }
{
    let mut all = true;
    for e in es {
        all = all && lowers(e);
    }
    all
}

#[cycle(statements)]
fn lowers_stmt(s: &Stmt) -> bool
    ensures { result ≡ definition.lowers_stmt (stmt_of s.now) }
{
    match s {
        Stmt::Assign(a) => lowers_assign(a),
        Stmt::Print(_, es) => lowers_items(es.as_slice()),
        Stmt::If(branches, otherwise) => {
            lowers_branches(branches.as_slice()) && lowers_stmts(otherwise.as_slice())
        }
        Stmt::Select(_, e, cases, otherwise) => {
            lowers(e) && lowers_cases(cases.as_slice()) && lowers_stmts(otherwise.as_slice())
        }
        Stmt::Do(_, _, first, last, step, body) => {
            lowers(first) && lowers(last) && lowers_bound(step) && lowers_stmts(body.as_slice())
        }
        Stmt::While(_, e, body) => lowers(e) && lowers_stmts(body.as_slice()),
        Stmt::Forever(_, body) => lowers_stmts(body.as_slice()),
        Stmt::Exit(..) | Stmt::Cycle(..) | Stmt::Return(_) | Stmt::Stop(_) => true,
        Stmt::Where(_)
        | Stmt::Forall(_)
        | Stmt::Call(..)
        | Stmt::Allocate(..)
        | Stmt::Deallocate(..)
        | Stmt::Read(..) => false,
    }
}

#[cycle(statements)]
fn lowers_stmts(body: &[Stmt]) -> bool
    ensures { result ≡ definition.lowers_stmts (stmts_of body.now) }
{
    let mut all = true;
    for s in body {
        all = all && lowers_stmt(s);
    }
    all
}

#[cycle(statements)]
fn lowers_branches(branches: &[Branch]) -> bool
    ensures { result ≡ definition.lowers_branches (branches_of branches.now) }
{
    let mut all = true;
    for b in branches {
        all = all && lowers(&b.condition) && lowers_stmts(b.body.as_slice());
    }
    all
}

#[cycle(statements)]
fn lowers_cases(cases: &[Case]) -> bool
    ensures { result ≡ definition.lowers_cases (cases_of cases.now) }
{
    let mut all = true;
    for c in cases {
        all = all && lowers_stmts(c.body.as_slice());
    }
    all
}

fn is_own_scalar(of: DeclaredType, bounds: &Bounds, role: Role) -> bool
    ensures { result ≡ is_some (sort_of_own of (bounds_of bounds.now) role) }
{
    if matches!(of, DeclaredType::Character(Length::Assumed)) {
        return false;
    }
    match bounds {
        Bounds::None => match role {
            Role::Own => true,
            Role::Dummy(..) => false,
        },
        Bounds::Explicit(_) | Bounds::Assumed(_) | Bounds::Deferred(_) => false,
    }
}

fn lowers_entity(e: &Entity) -> bool
    ensures { result ≡ definition.lowers_entity (entity_of e.now) }
{
    is_own_scalar(e.of, &e.bounds, e.role) && lowers_option(&e.initial)
}

fn lowers_entities(es: &[Entity]) -> bool
    ensures { result ≡ list_all definition.lowers_entity (map entity_of es.now) }
{
    let mut all = true;
    for e in es {
        all = all && lowers_entity(e);
    }
    all
}

fn lowers_main(q: &Procedure) -> bool
    ensures { result ≡ definition.lowers_main (procedure_of q.now) }
{
    lowers_entities(q.entities.as_slice()) && lowers_stmts(q.body.as_slice())
}

fn is_alone(procedures: &[Procedure]) -> bool
    ensures { result ≡ definition.is_alone (map procedure_of procedures.now) }
{
    procedures.is_empty()
}

/// Whether the nests of a unit are defined so far: those of a main program alone, with scalar variables of its own.
pub fn lowers_unit(unit: &Unit) -> bool
    ensures { result ≡ definition.lowers_unit (program_of unit.now) }
{
    is_alone(unit.procedures.as_slice()) && lowers_main(&unit.main)
}
