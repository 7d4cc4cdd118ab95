//! What a separator makes of a field.

ghost use Rattle.std.specs.Prelude.{◌≡◌, option_and_then};
ghost use Rattle.f95_expressions.specs.Machine.{lone, plain, one_or_empty, spread_of, coloned, assigned, field, field_of};

use crate::pending::{Field, Spread, Stage};
use f95_tree::{Expression, Value};

/// The expression that is a value.
pub fn lone(value: Value) -> Option<Expression>
    ensures { result ≡ lone value }
{
    match value {
        Value::One(expression) => Some(expression),
        other => {
            drop(other);
            None
        }
    }
}

/// What may be absent, unless it is an implied DO.
fn plain(last: Option<Value>) -> Option<Option<Expression>>
    ensures { result ≡ plain last }
{
    match last {
        None => Some(None),
        Some(value) => lone(value).map(Some),
    }
}

/// The expression that stands there, if one does.
fn lone_in(last: Option<Value>) -> Option<Expression>
    ensures { result ≡ option_and_then lone last }
{
    lone(last?)
}

fn one_or_empty(last: Option<Value>) -> Spread
    ensures { result ≡ one_or_empty last }
{
    match last {
        None => Spread::Empty,
        Some(value) => Spread::One(value),
    }
}

fn spread_of(stage: Stage, last: Option<Value>) -> Option<Spread>
    ensures { result ≡ spread_of stage last }
{
    match stage {
        Stage::Start => Some(one_or_empty(last)),
        Stage::Upper(lower) => {
            let Some(upper) = plain(last) else {
                drop(lower);
                return None;
            };
            Some(Spread::Triplet(lower, upper, None))
        }
        Stage::Stride(lower, upper) => {
            let Some(stride) = lone_in(last) else {
                drop(lower);
                drop(upper);
                return None;
            };
            Some(Spread::Triplet(lower, upper, Some(stride)))
        }
    }
}

/// The field that ends here, with what was read last.
pub fn field_of(left: Option<Expression>, stage: Stage, last: Option<Value>) -> Option<Field>
    ensures { result ≡ field_of left stage last }
{
    let Some(spread) = spread_of(stage, last) else {
        drop(left);
        return None;
    };
    Some(Field { left, spread })
}

/// What a colon makes of a spread.
pub fn coloned(stage: Stage, last: Option<Value>) -> Option<Stage>
    ensures { result ≡ coloned stage last }
{
    match stage {
        Stage::Start => {
            let lower = plain(last)?;
            Some(Stage::Upper(lower))
        }
        Stage::Upper(lower) => {
            let Some(upper) = plain(last) else {
                drop(lower);
                return None;
            };
            Some(Stage::Stride(lower, upper))
        }
        Stage::Stride(lower, upper) => {
            drop(lower);
            drop(upper);
            drop(last);
            None
        }
    }
}

/// The left side that `=` makes where there is none yet.
fn assigned_first(stage: Stage, last: Option<Value>) -> Option<Expression>
    ensures { result ≡ assigned None stage last }
{
    match stage {
        Stage::Start => lone_in(last),
        Stage::Upper(lower) => {
            drop(lower);
            drop(last);
            None
        }
        Stage::Stride(lower, upper) => {
            drop(lower);
            drop(upper);
            drop(last);
            None
        }
    }
}

/// The left side that `=` makes.
pub fn assigned(left: Option<Expression>, stage: Stage, last: Option<Value>) -> Option<Expression>
    ensures { result ≡ assigned left stage last }
{
    match left {
        None => assigned_first(stage, last),
        Some(left) => {
            drop(left);
            drop(stage);
            drop(last);
            None
        }
    }
}
