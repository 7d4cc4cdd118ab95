//! Which units LoopC is defined for.
ghost use Rattle.std.specs.Prelude.{◌≡◌, ◌&&◌, ◌↔◌, nat_le, option_map, IsTrue};
ghost use Rattle.std.specs.List.{list_all};
ghost use Rattle.nest_tree.specs.View.{procedure_of, unit_of, tree_of, guard_of, piece_of, frame_of, statement_of, statements_of};
ghost use Rattle.nest_emit.specs.Emits.{is_computed, emits_access, emits_elemental, emits_question, emits_tree, emits_trees};
ghost use Rattle.nest_emit.specs.Emits.{emits_guard, emits_piece, is_integer, is_positive, emits_span, most_loops};
ghost use Rattle.nest_emit.specs.Emits.{emits_statement, emits_all, Emits};
ghost use Rattle.nest_tree.specs.Plain.{Trees};
ghost use Rattle.nest_tree.specs.declared.access.Dimension.{Dimension};
ghost use Rattle.nest_sorts.specs.Seen.{operand_of, trees_of, nest_of};

use f95_unit::Elemental;
use nest_sorts::{is_own_text, is_sort, scalar_at};
use nest_tree::{
    Access, Along, Amount, Dimension, Guard, Nest, NestUnit, Operand, Piece, Procedure, Question,
    Sort, Span, Statement, Tree,
};

// ---- accesses and trees

fn is_computed(along: Along) -> bool
    ensures { result ≡ is_computed along }
{
    match along {
        Along::Listed(..) => false,
        _ => true,
    }
}

fn are_computed(dimensions: &[Dimension]) -> bool
    ensures { result ≡ list_all (λ (d : Dimension). is_computed d.along) dimensions.now }
{
    for dimension in dimensions {
        if !is_computed(dimension.along) {
            return false;
        }
    }
    true
}

fn emits_access(access: &Access) -> bool
    ensures { result ≡ emits_access access.now }
{
    are_computed(access.dimensions.as_slice())
}

fn emits_elemental(which: Elemental) -> bool
    ensures { result ≡ emits_elemental which }
{
    match which {
        Elemental::Ichar | Elemental::LenTrim | Elemental::Index => false,
        _ => true,
    }
}

fn emits_question(question: Question) -> bool
    ensures { result ≡ emits_question question }
{
    match question {
        Question::Upper(_) | Question::Length => false,
        _ => true,
    }
}

/// Whether a tree has lines.
#[cycle(emits_tree)]
fn emits_tree(tree: &Tree) -> bool
    ensures { result ≡ emits_tree (tree_of tree.now) }
{
    match tree {
        Tree::Literal(_) => true,
        Tree::Number(_) => true,
        Tree::Constant(_) => true,
        Tree::Fixed(_) => true,
        Tree::Read(access) => emits_access(access),
        Tree::Cell(_, t) => emits_tree(t.get()),
        Tree::Entry(..) => false,
        Tree::Turn(_) => true,
        Tree::Place(access) => emits_access(access),
        Tree::Asked(question, _) => emits_question(*question),
        Tree::Unary(_, t) => emits_tree(t.get()),
        Tree::Binary(_, t, u) => emits_tree(t.get()) && emits_tree(u.get()),
        Tree::Exact(_, t, u) => emits_tree(t.get()) && emits_tree(u.get()),
        // a length has no limit that is known, so it is wrapped at once
        Tree::Wrapped(t) => match t.get() {
            Tree::Len(u) => emits_tree(u.get()),
            _ => emits_tree(t.get()),
        },
        Tree::Elemental(which, operands) => {
            emits_elemental(*which) && emits_trees(operands.as_slice())
        }
        Tree::Trim(t) => emits_tree(t.get()),
        Tree::Len(_) => false,
        Tree::Applied(..) => false,
    }
}

#[cycle(emits_tree)]
fn emits_trees(operands: &[Operand]) -> bool
    ensures { result ≡ emits_trees (trees_of operands.now) }
{
    for operand in operands {
        if !emits_operand(operand) {
            return false;
        }
    }
    true
}

#[cycle(emits_tree)]
fn emits_operand(operand: &Operand) -> bool
    ensures { (more : Trees) → emits_trees (operand_of operand.now more) ≡ (result && emits_trees more) }
{
    emits_tree(&operand.value)
}

// ---- pieces and bounds

fn emits_guard(guard: &Option<Guard>) -> bool
    ensures { result ≡ emits_guard (option_map guard_of guard.now) }
{
    match guard {
        None => true,
        Some(guard) => emits_tree(&guard.test),
    }
}

fn emits_piece(piece: &Piece) -> bool
    ensures { result ≡ emits_piece (piece_of piece.now) }
{
    emits_access(&piece.target) && emits_guard(&piece.guard) && emits_tree(&piece.value)
}

fn is_integer(own: &Procedure, amount: Amount) -> bool
    ensures { result ≡ is_integer (procedure_of own.now) amount }
{
    match amount {
        Amount::Number(z) => -2147483648 <= z && z < 2147483648,
        Amount::Kept(k) => is_sort(scalar_at(own, k), Sort::Int),
    }
}

fn is_positive(amount: Amount) -> bool
    ensures { result ≡ is_positive amount }
{
    match amount {
        Amount::Number(z) => 1 <= z,
        Amount::Kept(_) => false,
    }
}

fn emits_span(own: &Procedure, span: Span) -> bool
    ensures { result ≡ emits_span (procedure_of own.now) span }
{
    is_positive(span.lower) || (is_integer(own, span.lower) && is_integer(own, span.upper))
}

fn emits_spans(own: &Procedure, spans: &[Span]) -> bool
    ensures { result ≡ list_all (emits_span (procedure_of own.now)) spans.now }
{
    for span in spans {
        if !emits_span(own, *span) {
            return false;
        }
    }
    true
}

// ---- statements

/// No more loops are around a statement than braces may be open.
fn is_near(out: u32) -> bool
    ensures { result ≡ nat_le out most_loops }
{
    out <= 990
}

/// Whether a statement has lines.
#[cycle(emits)]
fn emits_statement(own: &Procedure, statement: &Statement) -> bool
    ensures { result ≡ emits_statement (procedure_of own.now) (statement_of statement.now) }
{
    match statement {
        Statement::Set(_, _, t) => emits_tree(t),
        Statement::Test(_, _, t) => emits_tree(t),
        Statement::Store(piece) => emits_piece(piece.get()),
        Statement::StoreCell(_, _, t, u) => emits_tree(t) && emits_tree(u),
        Statement::Make(_, block) => emits_spans(own, block.bounds.as_slice()),
        Statement::Grow(_, name, _) => !is_own_text(own, *name),
        Statement::Rebound(_, _, spans) => emits_spans(own, spans.as_slice()),
        Statement::Free(..) => true,
        Statement::MakeList(..) => false,
        Statement::StoreEntry(..) => false,
        Statement::FreeList(..) => false,
        Statement::Nest(nest) => emits_nest(own, nest.get()),
        Statement::If(_, t, yes_part, no_part) => {
            emits_tree(t)
                && emits_all(own, yes_part.as_slice())
                && emits_all(own, no_part.as_slice())
        }
        Statement::While(_, head, t, body) => {
            emits_all(own, head.as_slice()) && emits_tree(t) && emits_all(own, body.as_slice())
        }
        Statement::Call(..) => false,
        Statement::Put(_, t) => emits_tree(t),
        Statement::Write => true,
        Statement::Take(..) => true,
        Statement::Skip(..) => true,
        Statement::Exit(out) => is_near(*out),
        Statement::Cycle(out) => is_near(*out),
        Statement::Return => true,
        Statement::Stop => true,
    }
}

#[cycle(emits)]
fn emits_nest(own: &Procedure, nest: &Nest) -> bool
    ensures { result ≡ emits_statement (procedure_of own.now) (nest_of nest.now) }
{
    emits_all(own, nest.checks.as_slice()) && emits_all(own, nest.body.as_slice())
}

/// Whether each of the statements has lines.
#[cycle(emits)]
pub fn emits_all(own: &Procedure, statements: &[Statement]) -> bool
    ensures { result ≡ emits_all (procedure_of own.now) (statements_of statements.now) }
{
    for statement in statements {
        if !emits_statement(own, statement) {
            return false;
        }
    }
    true
}

/// Whether LoopC is defined for the unit.
pub fn is_emitted(unit: &NestUnit) -> bool
    ensures { IsTrue result ↔ Emits (unit_of unit.now) }
{
    emits_all(&unit.main, unit.main.body.as_slice())
}
