//! Rows that set variables, change blocks and gather records. Each function does what its word in the definition says
//! of a state whose rest begins behind the row.
ghost use Rattle.loop_tree.specs.State.{with_at};
ghost use Rattle.loop_tree.specs.Values.{grown, atom_of, text_of, block_of, block_at, holds};
ghost use Rattle.a95_base.specs.Input.{next_value, record_length};
ghost use Rattle.loop_tree.specs.Machine.{take_line, int_line, text_line, change_line, store_int, store_text, free_line};
ghost use Rattle.loop_tree.specs.Machine.{new_ints_line, new_texts_line, same_ints_line, same_texts_line, block_line, put_line};
ghost use Rattle.loop_tree.specs.Machine.{record_line};
ghost use Rattle.loop_rows.specs.Shown.{shown};
ghost use Rattle.loop_rows.specs.Rows.{Obeyed, Gathered};

use crate::routine::Routine;
use crate::state::Core;
use crate::values::{atom, block, holds, int_value, rest, text, text_value};
use a95_base::{Bytes, Scalar, wrap32};
use loop_heap::{Halt, Link};
use loop_tree::{Atom, BlockRow, IntValue, RecordRow, Reference, StuckState, TextValue};
use record_io::{Looked, after_record, look};

/// `iN = f_take(A);`
fn take(routines: &[Routine], core: &mut Core, n: u32, comma: bool) -> Result<(), Halt>
    ensures { Obeyed (take_line (shown routines.now core.old) n (next_value comma (shown routines.now core.old).input))
        routines.now core.new result }
{
    let _ = routines;
    match look(rest(core.input.as_slice(), core.taken), comma) {
        Looked::Value { value, used } => {
            core.active.ints.set(n, i64::from(value))?;
            core.taken = core.taken.saturating_add(used);
            Ok(())
        }
        Looked::End | Looked::Bad => Err(Halt::Stuck(StuckState::NoInteger)),
    }
}

/// `iN = ..;`
#[inline]
#[tactic(auto, unfolding(loop_tree::specs::Machine::int_line))]
pub fn set_int(routines: &[Routine], core: &mut Core, n: u32, value: &IntValue) -> Result<(), Halt>
    ensures { Obeyed (int_line (shown routines.now core.old) n value.now) routines.now core.new result }
{
    match value {
        IntValue::Take(a) => {
            let comma = holds(atom(&core.active.ints, &core.active.indices, *a));
            take(routines, core, n, comma)
        }
        IntValue::Atom(_)
        | IntValue::Operation(_, _, _)
        | IntValue::Cell(_, _)
        | IntValue::Wrap(_)
        | IntValue::Power(_, _)
        | IntValue::Xor(_, _)
        | IntValue::Length(_)
        | IntValue::Index(_, _)
        | IntValue::Code(_)
        | IntValue::Compare(_, _)
        | IntValue::Size(_)
        | IntValue::Live(_)
        | IntValue::Depth
        | IntValue::More
        | IntValue::Look(_) => {
            let found = int_value(routines, core, value)?;
            core.active.ints.set(n, found)?;
            Ok(())
        }
    }
}

/// `sN = ..;`
#[inline]
#[tactic(auto, unfolding(loop_tree::specs::Machine::text_line))]
pub fn set_text(
    routines: &[Routine],
    core: &mut Core,
    n: u32,
    value: &TextValue,
) -> Result<(), Halt>
    ensures { Obeyed (text_line (shown routines.now core.old) n value.now) routines.now core.new result }
{
    let made = text_value(routines, core, value)?;
    core.active.texts.set(n, made)?;
    Ok(())
}

/// `bN[A] = A;`
#[tactic(auto, unfolding(loop_tree::specs::Machine::change_line))]
fn store_int(
    routines: &[Routine],
    core: &mut Core,
    link: Option<Link>,
    at: i64,
    value: i64,
) -> Result<(), Halt>
    ensures { Obeyed (change_line (shown routines.now core.old) link (store_int at value)) routines.now core.new result }
{
    let _ = routines;
    core.blocks.store_int(link, at, value)?;
    Ok(())
}

/// `cN[A] = S;`
#[tactic(auto, unfolding(loop_tree::specs::Machine::change_line))]
fn store_text(
    routines: &[Routine],
    core: &mut Core,
    link: Option<Link>,
    at: i64,
    value: Bytes,
) -> Result<(), Halt>
    ensures { Obeyed (change_line (shown routines.now core.old) link (store_text at value)) routines.now core.new result }
{
    let _ = routines;
    core.blocks.store_text(link, at, value)?;
    Ok(())
}

/// `f_grow(R, A);`
#[tactic(auto, unfolding(loop_tree::specs::Machine::block_line, loop_tree::specs::Machine::change_line))]
fn grow(routines: &[Routine], core: &mut Core, r: Reference, a: Atom) -> Result<(), Halt>
    ensures { Obeyed (block_line (shown routines.now core.old) (BlockRow.Grow r a)) routines.now core.new result }
{
    let _ = routines;
    let count = atom(&core.active.ints, &core.active.indices, a);
    let link = block(&core.active.int_blocks, &core.active.text_blocks, r);
    core.blocks.grow(link, count)?;
    Ok(())
}

/// `f_free(R);`
#[tactic(auto, unfolding(loop_tree::specs::Machine::free_line))]
fn free(routines: &[Routine], core: &mut Core, link: Option<Link>) -> Result<(), Halt>
    ensures { Obeyed (free_line (shown routines.now core.old) link) routines.now core.new result }
{
    let _ = routines;
    core.blocks.free(link)?;
    Ok(())
}

/// `bN = f_new(A);`
#[tactic(auto, unfolding(loop_tree::specs::Machine::new_ints_line))]
fn new_ints(routines: &[Routine], core: &mut Core, n: u32, count: i64) -> Result<(), Halt>
    ensures { Obeyed (new_ints_line (shown routines.now core.old) n count) routines.now core.new result }
{
    let _ = routines;
    let link = core.blocks.new_ints(count)?;
    core.active.int_blocks.set(n, Some(link))?;
    Ok(())
}

/// `cN = f_new_text(A, A);`
#[tactic(auto, unfolding(loop_tree::specs::Machine::new_texts_line))]
fn new_texts(
    routines: &[Routine],
    core: &mut Core,
    n: u32,
    count: i64,
    size: i64,
) -> Result<(), Halt>
    ensures { Obeyed (new_texts_line (shown routines.now core.old) n count size) routines.now core.new result }
{
    let _ = routines;
    let link = core.blocks.new_texts(count, size)?;
    core.active.text_blocks.set(n, Some(link))?;
    Ok(())
}

/// `bN = bN;`
#[tactic(auto, unfolding(loop_tree::specs::Machine::same_ints_line))]
fn same_ints(routines: &[Routine], core: &mut Core, n: u32, m: u32) -> Result<(), Halt>
    ensures { Obeyed (same_ints_line (shown routines.now core.old) n (block_at core.old.active.int_blocks m)) routines.now
        core.new result }
{
    let _ = routines;
    core.blocks.check(core.active.int_blocks.get(m))?;
    let link = core.active.int_blocks.get(m);
    core.active.int_blocks.set(n, link)?;
    Ok(())
}

/// `cN = cN;`
#[tactic(auto, unfolding(loop_tree::specs::Machine::same_texts_line))]
fn same_texts(routines: &[Routine], core: &mut Core, n: u32, m: u32) -> Result<(), Halt>
    ensures { Obeyed (same_texts_line (shown routines.now core.old) n (block_at core.old.active.text_blocks m)) routines.now
        core.new result }
{
    let _ = routines;
    core.blocks.check(core.active.text_blocks.get(m))?;
    let link = core.active.text_blocks.get(m);
    core.active.text_blocks.set(n, link)?;
    Ok(())
}

/// A row that makes, changes, names or frees a block.
#[inline]
#[tactic(auto, unfolding(loop_tree::specs::Machine::block_line))]
pub fn change_block(routines: &[Routine], core: &mut Core, row: &BlockRow) -> Result<(), Halt>
    ensures { Obeyed (block_line (shown routines.now core.old) row.now) routines.now core.new result }
{
    match row {
        BlockRow::StoreInt(n, i, a) => {
            let at = atom(&core.active.ints, &core.active.indices, *i);
            let value = atom(&core.active.ints, &core.active.indices, *a);
            let link = core.active.int_blocks.get(*n);
            store_int(routines, core, link, at, value)
        }
        BlockRow::StoreText(n, i, t) => {
            let at = atom(&core.active.ints, &core.active.indices, *i);
            let value = Bytes::from_slice(core.alloc, text(&core.active.texts, t))?;
            let link = core.active.text_blocks.get(*n);
            store_text(routines, core, link, at, value)
        }
        BlockRow::New(n, a) | BlockRow::Temp(n, a) | BlockRow::Copy(n, a) | BlockRow::Mark(n, a) =>
            {
                let count = atom(&core.active.ints, &core.active.indices, *a);
                new_ints(routines, core, *n, count)
            }
        BlockRow::NewText(n, a, b) => {
            let count = atom(&core.active.ints, &core.active.indices, *a);
            let size = atom(&core.active.ints, &core.active.indices, *b);
            new_texts(routines, core, *n, count, size)
        }
        BlockRow::TempText(n, a) | BlockRow::CopyText(n, a) => {
            let count = atom(&core.active.ints, &core.active.indices, *a);
            new_texts(routines, core, *n, count, 0)
        }
        BlockRow::SameInts(n, m) => same_ints(routines, core, *n, *m),
        BlockRow::SameTexts(n, m) => same_texts(routines, core, *n, *m),
        BlockRow::Grow(r, a) => grow(routines, core, *r, *a),
        BlockRow::Free(r) => {
            let link = block(&core.active.int_blocks, &core.active.text_blocks, *r);
            free(routines, core, link)
        }
    }
}

/// A value is put into the pending record.
#[tactic(auto, unfolding(loop_tree::specs::Machine::put_line))]
fn put(routines: &[Routine], core: &mut Core, value: &Scalar) -> Result<bool, Halt>
    ensures { Gathered (put_line (shown routines.now core.old) value.now) routines.now core.new result }
{
    let _ = routines;
    core.pending.put_value(value)?;
    Ok(false)
}

/// A row that adds to the pending record, writes it, or skips a record of the input. Whether the pending record is to be
/// written.
#[inline]
#[tactic(auto, unfolding(loop_tree::specs::Machine::record_line))]
pub fn gather(routines: &[Routine], core: &mut Core, row: &RecordRow) -> Result<bool, Halt>
    ensures { Gathered (record_line (shown routines.now core.old) row.now) routines.now core.new result }
{
    match row {
        RecordRow::PutInt(a) => {
            let value = Scalar::Int(wrap32(atom(&core.active.ints, &core.active.indices, *a)));
            put(routines, core, &value)
        }
        RecordRow::PutLog(a) => {
            let value = Scalar::Log(holds(atom(&core.active.ints, &core.active.indices, *a)));
            put(routines, core, &value)
        }
        RecordRow::PutText(t) => {
            let bytes = Bytes::from_slice(core.alloc, text(&core.active.texts, t))?;
            put(routines, core, &Scalar::Text(bytes))
        }
        RecordRow::Write => Ok(true),
        RecordRow::Skip => {
            let used = after_record(rest(core.input.as_slice(), core.taken));
            core.taken = core.taken.saturating_add(used);
            Ok(false)
        }
    }
}
