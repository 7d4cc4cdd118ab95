//! What is made of an expression, and the steps by which it is made.
ghost use Rattle.std.specs.Prelude.{◌≡◌, ◌∷◌, ◌++◌, [], IfOk, length, map};
ghost use Rattle.f95_unit.specs.View.{line_of, designator_of, expr_of};
ghost use Rattle.nest_tree.specs.declared.access.Name.TheVariants as name;
ghost use Rattle.nest_tree.specs.declared.tree.Question.TheVariants as question;
ghost use Rattle.nest_tree.specs.declared.unit.Sort.TheVariants as sort;
ghost use Rattle.nest_tree.specs.Plain as nest;
ghost use Rattle.nest_tree.specs.Plain.{no_statement, statement, tree, joined};
ghost use Rattle.nest_tree.specs.View.{tree_of, statement_of, statements_of};
ghost use Rattle.control_lower.specs.Trees as made;
ghost use Rattle.control_nests.specs.View.{operand_of, lowered_of, all_of};

use a95_base::{Kind, Line, Scalar};
use f95_unit::{BinaryOp, Designator, Elemental, Expr, UnaryOp};
use nest_tree::{Access, Name, Operand, Question, Sort, Statement, Tree};
use sqlite_items::{Boxed, Items};
use std::alloc::{AllocError, Global};

/// What is left of an expression: the statements that evaluate its parts, the tree, and the sorts of all scalars that are taken
/// behind.
#[derive(Drop)]
pub struct Lowered {
    pub parts: Items<Statement>,
    pub tree: Tree,
    pub scalars: Items<Sort>,
}

/// The same of arguments.
#[derive(Drop)]
pub struct LoweredAll {
    pub parts: Items<Statement>,
    pub operands: Items<Operand>,
    pub scalars: Items<Sort>,
}

pub fn sort_of_kind(kind: Kind) -> Sort
    ensures { result ≡ made.sort_of_kind kind }
{
    match kind {
        Kind::Int => Sort::Int,
        Kind::Log => Sort::Log,
        Kind::Text => Sort::Text,
    }
}

pub fn sort_of(e: &Expr) -> Sort
    ensures { result ≡ made.sort_of_expr (expr_of e.now) }
{
    sort_of_kind(e.facts.kind)
}

/// The number of the next scalar.
pub fn next_number(scalars: &Items<Sort>) -> Result<u32, AllocError>
    ensures { IfOk result (λ n. n ≡ length scalars.now) }
{
    match u32::try_from(scalars.len()) {
        Ok(n) => Ok(n),
        Err(_) => Err(AllocError),
    }
}

pub fn with_scalar(scalars: Items<Sort>, s: Sort) -> Result<Items<Sort>, AllocError>
    ensures { IfOk result (λ r. r ≡ scalars ++ s ∷ []) }
{
    let mut scalars = scalars;
    match scalars.push(s) {
        Ok(()) => Ok(scalars),
        Err(e) => {
            drop(scalars);
            Err(e)
        }
    }
}

/// One list behind the other.
#[tactic(auto, using(crate::proofs::Joined::statements_append))]
pub fn join(
    first: Items<Statement>,
    second: Items<Statement>,
) -> Result<Items<Statement>, AllocError>
    ensures { IfOk result (λ r. statements_of r ≡ joined (statements_of first) (statements_of second)) }
{
    let mut first = first;
    match first.append(second) {
        Ok(()) => Ok(first),
        Err(e) => {
            drop(first);
            Err(e)
        }
    }
}

/// One more statement.
#[tactic(auto, using(crate::proofs::Joined::statements_append))]
pub fn with_statement(list: Items<Statement>, s: Statement) -> Result<Items<Statement>, AllocError>
    ensures { IfOk result (λ r. statements_of r ≡ joined (statements_of list) (statement (statement_of s) no_statement)) }
{
    let mut list = list;
    match list.push(s) {
        Ok(()) => Ok(list),
        Err(e) => {
            drop(list);
            Err(e)
        }
    }
}

/// A tree without parts.
pub fn leaf(alloc: Global, t: Tree, taken: Items<Sort>) -> Lowered
    ensures { lowered_of result ≡ made.one no_statement (tree_of t) taken }
{
    Lowered {
        parts: Items::new(alloc),
        tree: t,
        scalars: taken,
    }
}

/// A scalar variable as an access.
pub fn whole(alloc: Global, n: u32) -> Access
    ensures { result ≡ made.whole n }
{
    Access {
        name: Name::Own(n),
        dimensions: Items::new(alloc),
        portion: None,
    }
}

fn copy_of(alloc: Global, x: &Scalar) -> Result<Scalar, AllocError>
    ensures { IfOk result (λ y. y ≡ x.now) }
{
    match x {
        Scalar::Int(z) => Ok(Scalar::Int(*z)),
        Scalar::Log(b) => Ok(Scalar::Log(*b)),
        Scalar::Text(bytes) => Ok(Scalar::Text(bytes.copy(alloc)?)),
    }
}

pub fn literal(alloc: Global, x: &Scalar, taken: Items<Sort>) -> Result<Lowered, AllocError>
    ensures { IfOk result (λ r. lowered_of r ≡ made.one no_statement (nest.Literal x.now) taken) }
{
    match copy_of(alloc, x) {
        Ok(y) => Ok(leaf(alloc, Tree::Literal(y), taken)),
        Err(e) => {
            drop(taken);
            Err(e)
        }
    }
}

pub fn named(alloc: Global, d: &Designator, taken: Items<Sort>) -> Lowered
    ensures { lowered_of result ≡ made.one no_statement (nest.Read (made.whole (made.variable_of (designator_of d.now)))) taken }
{
    leaf(alloc, Tree::Read(whole(alloc, d.variable)), taken)
}

pub fn length_of(alloc: Global, n: u32, taken: Items<Sort>) -> Result<Lowered, AllocError>
    ensures { IfOk result (λ r. lowered_of r
        ≡ made.one no_statement (nest.Wrapped (nest.Asked question.Length (name.Own n))) taken) }
{
    match Boxed::new(alloc, Tree::Asked(Question::Length, Name::Own(n))) {
        Ok(asked) => Ok(leaf(alloc, Tree::Wrapped(asked), taken)),
        Err(e) => {
            drop(taken);
            Err(e)
        }
    }
}

/// The value held by one more scalar.
pub fn held(line: Line, s: Sort, l: Lowered) -> Result<Lowered, AllocError>
    ensures { IfOk result (λ r. lowered_of r ≡ made.held (line_of line) s (lowered_of l)) }
{
    let number = match next_number(&l.scalars) {
        Ok(n) => n,
        Err(e) => {
            drop(l);
            return Err(e);
        }
    };
    let Lowered {
        parts,
        tree,
        scalars,
    } = l;
    let parts = match with_statement(parts, Statement::Set(line, number, tree)) {
        Ok(parts) => parts,
        Err(e) => {
            drop(scalars);
            return Err(e);
        }
    };
    match with_scalar(scalars, s) {
        Ok(scalars) => Ok(Lowered {
            parts,
            tree: Tree::Fixed(number),
            scalars,
        }),
        Err(e) => {
            drop(parts);
            Err(e)
        }
    }
}

pub fn unary(alloc: Global, op: UnaryOp, l: Lowered) -> Result<Lowered, AllocError>
    ensures { IfOk result (λ r. lowered_of r ≡ made.changed (nest.Unary op) (lowered_of l)) }
{
    let Lowered {
        parts,
        tree,
        scalars,
    } = l;
    match Boxed::new(alloc, tree) {
        Ok(inner) => Ok(Lowered {
            parts,
            tree: Tree::Unary(op, inner),
            scalars,
        }),
        Err(e) => {
            drop(parts);
            drop(scalars);
            Err(e)
        }
    }
}

/// TRIM, held by a scalar.
pub fn trimmed(alloc: Global, line: Line, l: Lowered) -> Result<Lowered, AllocError>
    ensures { IfOk result (λ r. lowered_of r ≡ made.held (line_of line) sort.Text (made.changed nest.Trim (lowered_of l))) }
{
    let Lowered {
        parts,
        tree,
        scalars,
    } = l;
    match Boxed::new(alloc, tree) {
        Ok(inner) => held(
            line,
            Sort::Text,
            Lowered {
                parts,
                tree: Tree::Trim(inner),
                scalars,
            },
        ),
        Err(e) => {
            drop(parts);
            drop(scalars);
            Err(e)
        }
    }
}

fn both_trees(alloc: Global, op: BinaryOp, left: Tree, right: Tree) -> Result<Tree, AllocError>
    ensures { IfOk result (λ t. tree_of t ≡ nest.Binary op (tree_of left) (tree_of right)) }
{
    let left = match Boxed::new(alloc, left) {
        Ok(left) => left,
        Err(e) => {
            drop(right);
            return Err(e);
        }
    };
    match Boxed::new(alloc, right) {
        Ok(right) => Ok(Tree::Binary(op, left, right)),
        Err(e) => {
            drop(left);
            Err(e)
        }
    }
}

/// Two operands, of which the second is lowered behind the first.
pub fn binary(
    alloc: Global,
    op: BinaryOp,
    parts: Items<Statement>,
    left: Tree,
    second: Lowered,
) -> Result<Lowered, AllocError>
    ensures { IfOk result (λ r. lowered_of r ≡ made.one (joined (statements_of parts) (statements_of second.parts))
        (nest.Binary op (tree_of left) (tree_of second.tree)) second.scalars) }
{
    let Lowered {
        parts: more,
        tree,
        scalars,
    } = second;
    let parts = match join(parts, more) {
        Ok(parts) => parts,
        Err(e) => {
            drop(left);
            drop(tree);
            drop(scalars);
            return Err(e);
        }
    };
    match both_trees(alloc, op, left, tree) {
        Ok(tree) => Ok(Lowered {
            parts,
            tree,
            scalars,
        }),
        Err(e) => {
            drop(parts);
            drop(scalars);
            Err(e)
        }
    }
}

/// A function of arguments, held by a scalar.
pub fn of_all(line: Line, s: Sort, which: Elemental, l: LoweredAll) -> Result<Lowered, AllocError>
    ensures { IfOk result (λ r. lowered_of r ≡ made.of_all (line_of line) s (nest.Each which) (all_of l)) }
{
    let LoweredAll {
        parts,
        operands,
        scalars,
    } = l;
    held(
        line,
        s,
        Lowered {
            parts,
            tree: Tree::Elemental(which, operands),
            scalars,
        },
    )
}

#[tactic(auto, using(crate::proofs::Joined::operands_more))]
fn with_operand(
    operands: Items<Operand>,
    place: u32,
    value: Tree,
) -> Result<Items<Operand>, AllocError>
    ensures { IfOk result (λ r. map operand_of r ≡ map operand_of operands ++ tree place (tree_of value) ∷ []) }
{
    let mut operands = operands;
    match operands.push(Operand { place, value }) {
        Ok(()) => Ok(operands),
        Err(e) => {
            drop(operands);
            Err(e)
        }
    }
}

/// One more argument, held by a scalar, behind those that are lowered.
pub fn with_argument(
    line: Line,
    s: Sort,
    place: u32,
    parts: Items<Statement>,
    operands: Items<Operand>,
    l: Lowered,
) -> Result<LoweredAll, AllocError>
    ensures { IfOk result (λ r.
        (statements_of r.parts ≡ joined (statements_of parts) (made.held (line_of line) s (lowered_of l)).parts)
        × (map operand_of r.operands ≡ map operand_of operands ++ tree place (made.held (line_of line) s (lowered_of l)).tree ∷ [])
        × (r.scalars ≡ (made.held (line_of line) s (lowered_of l)).scalars)) }
{
    let l = match held(line, s, l) {
        Ok(l) => l,
        Err(e) => {
            drop(parts);
            drop(operands);
            return Err(e);
        }
    };
    let Lowered {
        parts: more,
        tree,
        scalars,
    } = l;
    let parts = match join(parts, more) {
        Ok(parts) => parts,
        Err(e) => {
            drop(operands);
            drop(tree);
            drop(scalars);
            return Err(e);
        }
    };
    match with_operand(operands, place, tree) {
        Ok(operands) => Ok(LoweredAll {
            parts,
            operands,
            scalars,
        }),
        Err(e) => {
            drop(parts);
            drop(scalars);
            Err(e)
        }
    }
}
