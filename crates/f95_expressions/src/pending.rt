//! What the machine has read: fields, and what is still open.

ghost use Rattle.std.specs.Prelude.{◌≡◌, ◌∷◌, IfOk};

use a95_base::{SharedBytes, Stack};
use f95_tree::{Expression, Item, Operator, Sign, Value};
use sqlite_items::{Boxed, Items};
use std::alloc::AllocError;

/// What stands between two commas: `left = spread`, or the spread alone.
#[derive(Drop)]
pub struct Field {
    pub left: Option<Expression>,
    pub spread: Spread,
}

#[derive(Drop)]
pub enum Spread {
    Empty,
    One(Value),
    /// `lower : upper`, or `lower : upper : stride`
    Triplet(Option<Expression>, Option<Expression>, Option<Expression>),
}

/// What fields stand in.
#[derive(Drop)]
pub enum Bracket {
    /// `( .. )` that begins an operand: an expression, or an implied DO
    Plain,
    /// `name ( .. )`
    Behind(SharedBytes),
    /// `name ( items ) ( .. )`
    Part(SharedBytes, Boxed<Items<Item>>),
    /// `(/ .. /)`
    Array,
    /// `( .. )` that a statement asks for
    Alone,
    /// the rest of a statement
    Row,
}

/// What has been read of a field's spread.
#[derive(Drop)]
pub enum Stage {
    Start,
    /// `lower :`
    Upper(Option<Expression>),
    /// `lower : upper :`
    Stride(Option<Expression>, Option<Expression>),
}

/// What waits for its next part.
#[derive(Drop)]
pub enum Pending {
    /// A left operand and its operator.
    Left(Expression, Operator),
    Before(Sign),
    /// A bracket with its fields so far, the newest one first, and what has been read of the next one.
    Open(Bracket, Stack<Field>, Option<Expression>, Stage),
}

/// An expression on top of a stack.
#[derive(Drop)]
pub struct Held {
    pub stack: Stack<Pending>,
    pub expression: Expression,
}

/// A state of the machine.
#[derive(Drop)]
pub enum Machine {
    /// For an operand.
    Waits(Stack<Pending>),
    Holds(Stack<Pending>, Expression),
    /// An implied DO has been read.
    Did(Stack<Pending>, Value),
    /// The bracket that a statement asks for is closed, with these fields, the newest one first.
    Closed(Stack<Field>),
    Stops,
}

/// A bracket with its fields, the left side and the stage of the next one, and what was read last.
#[derive(Drop)]
pub struct Ending {
    pub bracket: Bracket,
    pub fields: Stack<Field>,
    pub left: Option<Expression>,
    pub stage: Stage,
    pub last: Option<Value>,
}

/// A stack with one more item.
pub fn pushed<T: Drop>(stack: Stack<T>, item: T) -> Result<Stack<T>, AllocError>
    ensures { IfOk result (λ pushed. pushed ≡ item ∷ stack) }
{
    let mut stack = stack;
    match stack.push(item) {
        Ok(()) => Ok(stack),
        Err(error) => {
            drop(stack);
            Err(error)
        }
    }
}
