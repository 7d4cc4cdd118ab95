//! What rows read.
ghost use Rattle.std.specs.Prelude.{◌≡◌, pos, length, drop};
ghost use Rattle.record_io.specs.Looked.{reading};
ghost use Rattle.a95_base.specs.Input.{next_value};
ghost use Rattle.loop_tree.specs.Values.{atom_in, text_in, block_in, holds, is_left, look_of, taken, int_value, text_value};
ghost use Rattle.loop_heap.specs.Halts.{Yields};
ghost use Rattle.loop_rows.specs.Shown.{shown};

use crate::routine::Routine;
use crate::state::Core;
use a95_base::Bytes;
use loop_heap::{Halt, Link};
use loop_tree::{Atom, IntValue, Reference, StuckState, TextAtom, TextValue};
use loop_values::{
    Links, Numbers, Words, char, code, compare, fit, index, join, left, operation, over, power,
    right, sub, trim, truth, wrap, xor,
};
use record_io::{Looked, look};

/// The value of an integer atom.
#[inline]
pub fn atom(ints: &Numbers, indices: &Numbers, a: Atom) -> i64
    ensures { result ≡ atom_in ints.now indices.now a }
{
    match a {
        Atom::Int(n) => ints.get(n),
        Atom::Loop(k) => indices.get(k),
        Atom::Number(z) => z,
    }
}

/// The bytes of a text atom.
pub fn text<'a>(texts: &'a Words, t: &'a TextAtom) -> &'a [u8]
    ensures { result.now ≡ text_in texts.now t.now }
{
    match t {
        TextAtom::Variable(n) => texts.get(*n),
        TextAtom::Literal(bytes) => bytes.get().as_slice(),
    }
}

/// What a reference leads to.
pub fn block(int_blocks: &Links, text_blocks: &Links, r: Reference) -> Option<Link>
    ensures { result ≡ block_in int_blocks.now text_blocks.now r }
{
    match r {
        Reference::Ints(n) => int_blocks.get(n),
        Reference::Texts(n) => text_blocks.get(n),
    }
}

/// A condition holds where it isn't 0.
pub fn holds(z: i64) -> bool
    ensures { result ≡ holds z }
{
    z != 0
}

/// The input that is left.
pub fn rest(input: &[u8], taken: usize) -> &[u8]
    ensures { result.now ≡ drop taken input.now }
{
    match input.get(taken..) {
        Some(rest) => rest,
        None => &[],
    }
}

/// The number of bytes of a text.
fn size(text: &[u8]) -> i64
    ensures { result ≡ pos (length text.now) }
{
    text.len() as i64
}

/// What f_look gives: 0 where an integer is next, 1 at the end, 2 else.
fn look_code(rest: &[u8], comma: bool) -> i64
    ensures { result ≡ look_of (next_value comma rest.now) }
{
    match look(rest, comma) {
        Looked::Value { .. } => 0,
        Looked::End => 1,
        Looked::Bad => 2,
    }
}

/// The integer that is next, where f_take takes it.
fn next_integer(rest: &[u8], comma: bool) -> Result<i64, StuckState>
    ensures { result ≡ taken (next_value comma rest.now) }
{
    match look(rest, comma) {
        Looked::Value { value, .. } => Ok(i64::from(value)),
        Looked::End | Looked::Bad => Err(StuckState::NoInteger),
    }
}

fn is_left(rest: &[u8]) -> bool
    ensures { result ≡ is_left rest.now }
{
    match rest {
        [] => false,
        [_, ..] => true,
    }
}

/// The value of the right side of `iN = ..;`.
#[tactic(auto, unfolding(loop_tree::specs::Values::int_value))]
pub fn int_value(routines: &[Routine], core: &Core, value: &IntValue) -> Result<i64, StuckState>
    ensures { result ≡ int_value (shown routines.now core.now) value.now }
{
    let _ = routines;
    let ints = &core.active.ints;
    let indices = &core.active.indices;
    let texts = &core.active.texts;
    match value {
        IntValue::Atom(a) => Ok(atom(ints, indices, *a)),
        IntValue::Operation(a, op, b) => {
            operation(*op, atom(ints, indices, *a), atom(ints, indices, *b))
        }
        IntValue::Cell(n, a) => {
            core.blocks
                .int_cell(core.active.int_blocks.get(*n), atom(ints, indices, *a))
        }
        IntValue::Wrap(a) => Ok(wrap(atom(ints, indices, *a))),
        IntValue::Power(a, b) => power(atom(ints, indices, *a), atom(ints, indices, *b)),
        IntValue::Xor(a, b) => Ok(xor(atom(ints, indices, *a), atom(ints, indices, *b))),
        IntValue::Length(t) => Ok(size(text(texts, t))),
        IntValue::Index(t, u) => Ok(index(text(texts, t), text(texts, u))),
        IntValue::Code(t) => code(text(texts, t)),
        IntValue::Compare(t, u) => Ok(compare(text(texts, t), text(texts, u))),
        IntValue::Size(r) => {
            core.blocks.size(block(&core.active.int_blocks, &core.active.text_blocks, *r))
        }
        IntValue::Live(r) => {
            let link = block(&core.active.int_blocks, &core.active.text_blocks, *r);
            Ok(truth(core.blocks.is_live(link)))
        }
        IntValue::Depth => Ok(core.callers.len() as i64),
        IntValue::More => Ok(truth(is_left(rest(core.input.as_slice(), core.taken)))),
        IntValue::Look(a) => {
            let comma = holds(atom(ints, indices, *a));
            Ok(look_code(rest(core.input.as_slice(), core.taken), comma))
        }
        IntValue::Take(a) => {
            let comma = holds(atom(ints, indices, *a));
            next_integer(rest(core.input.as_slice(), core.taken), comma)
        }
    }
}

/// The bytes of the right side of `sN = ..;`.
#[tactic(auto, unfolding(loop_tree::specs::Values::text_value))]
pub fn text_value(routines: &[Routine], core: &Core, value: &TextValue) -> Result<Bytes, Halt>
    ensures { Yields (text_value (shown routines.now core.now) value.now) result }
{
    let _ = routines;
    let alloc = core.alloc;
    let ints = &core.active.ints;
    let indices = &core.active.indices;
    let texts = &core.active.texts;
    match value {
        TextValue::Atom(t) => Ok(Bytes::from_slice(alloc, text(texts, t))?),
        TextValue::Cell(n, a) => {
            let link = core.active.text_blocks.get(*n);
            let found = core.blocks.text_cell(link, atom(ints, indices, *a))?;
            Ok(Bytes::from_slice(alloc, found)?)
        }
        TextValue::Join(t, u) => Ok(join(alloc, text(texts, t), text(texts, u))?),
        TextValue::Part(t, a, b) => sub(
            alloc,
            text(texts, t),
            atom(ints, indices, *a),
            atom(ints, indices, *b),
        ),
        TextValue::Over(t, a, u) => over(
            alloc,
            text(texts, t),
            atom(ints, indices, *a),
            text(texts, u),
        ),
        TextValue::Fit(t, a) => fit(alloc, text(texts, t), atom(ints, indices, *a)),
        TextValue::Trim(t) => Ok(trim(alloc, text(texts, t))?),
        TextValue::Left(t) => Ok(left(alloc, text(texts, t))?),
        TextValue::Right(t) => Ok(right(alloc, text(texts, t))?),
        TextValue::Char(a) => char(alloc, atom(ints, indices, *a)),
    }
}
