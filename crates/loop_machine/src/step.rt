//! One line after another. The work on a row stands in functions of their own, so that what may halt it goes through
//! memory only there.
ghost use Rattle.loop_tree.specs.Machine.{int_line, text_line, block_line, record_line, control_line, row_line, do_line, step};
ghost use Rattle.loop_rows.specs.Shown.{shown};
ghost use Rattle.loop_machine.specs.Moves.{Did};

use crate::calls::call;
use crate::flow::{
    begin_down, begin_forever, begin_up, choose, close, leave, leave_loop, next_iteration,
    pass_other, set_line,
};
use crate::moves::{Move, halts};
use loop_rows::{Core, Routine, atom, change_block, gather, line_at, set_int, set_text};
use loop_tree::{BlockRow, CodeLine, ControlRow, IntValue, RecordRow, Row, TextValue};

#[inline(never)]
fn int_row(routines: &[Routine], core: &mut Core, n: u32, value: &IntValue, may: bool) -> Move
    ensures { Did (int_line (shown routines.now core.old) n value.now) may routines.now core.old core.new result }
{
    let _ = may;
    match set_int(routines, core, n, value) {
        Ok(()) => Move::Quiet,
        Err(halt) => halts(core, halt),
    }
}

#[inline(never)]
fn text_row(routines: &[Routine], core: &mut Core, n: u32, value: &TextValue, may: bool) -> Move
    ensures { Did (text_line (shown routines.now core.old) n value.now) may routines.now core.old core.new result }
{
    let _ = may;
    match set_text(routines, core, n, value) {
        Ok(()) => Move::Quiet,
        Err(halt) => halts(core, halt),
    }
}

#[inline(never)]
fn block_row(routines: &[Routine], core: &mut Core, row: &BlockRow, may: bool) -> Move
    ensures { Did (block_line (shown routines.now core.old) row.now) may routines.now core.old core.new result }
{
    let _ = may;
    match change_block(routines, core, row) {
        Ok(()) => Move::Quiet,
        Err(halt) => halts(core, halt),
    }
}

#[inline(never)]
fn record_row(routines: &[Routine], core: &mut Core, row: &RecordRow, may: bool) -> Move
    ensures { Did (record_line (shown routines.now core.old) row.now) may routines.now core.old core.new result }
{
    let _ = may;
    match gather(routines, core, row) {
        Ok(true) => Move::Record,
        Ok(false) => Move::Quiet,
        Err(halt) => halts(core, halt),
    }
}

/// A row that says where the program goes on.
#[inline(never)]
#[tactic(auto, unfolding(loop_tree::specs::Machine::control_line))]
fn control_row(routines: &[Routine], core: &mut Core, row: &ControlRow, may: bool) -> Move
    ensures { Did (control_line routines.now (shown routines.now core.old) row.now) may routines.now core.old core.new result }
{
    match row {
        ControlRow::Break => leave_loop(routines, core, may),
        ControlRow::Continue => next_iteration(routines, core, may),
        ControlRow::Return => leave(routines, core, may),
        ControlRow::Call(n, arguments) => call(routines, core, *n, arguments.as_slice(), may),
        ControlRow::Stop => Move::Ended,
        ControlRow::Fault(kind) => {
            core.fault = *kind;
            Move::Fault
        }
        ControlRow::At(n) => set_line(routines, core, *n, may),
    }
}

#[tactic(auto, unfolding(loop_tree::specs::Machine::row_line))]
fn obey_row(routines: &[Routine], core: &mut Core, row: &Row, may: bool) -> Move
    ensures { Did (row_line routines.now (shown routines.now core.old) row.now) may routines.now core.old core.new result }
{
    match row {
        Row::Int(n, value) => int_row(routines, core, *n, value, may),
        Row::Text(n, value) => text_row(routines, core, *n, value.get(), may),
        Row::Block(row) => block_row(routines, core, row, may),
        Row::Control(row) => control_row(routines, core, row, may),
        Row::Record(row) => record_row(routines, core, row, may),
    }
}

/// Obeys a line, in a state whose rest begins behind it.
#[tactic(auto, unfolding(loop_tree::specs::Machine::do_line))]
fn obey(routines: &[Routine], core: &mut Core, line: &CodeLine, may: bool) -> Move
    ensures { Did (do_line routines.now (shown routines.now core.old) line.now) may routines.now core.old core.new result }
{
    match line {
        CodeLine::Row(row) => obey_row(routines, core, row, may),
        CodeLine::If(test) => {
            let test = atom(&core.active.ints, &core.active.indices, *test);
            choose(routines, core, test, may)
        }
        CodeLine::Else => pass_other(routines, core, may),
        CodeLine::ForUp(k, bound) => begin_up(routines, core, *k, *bound, may),
        CodeLine::ForDown(k, bound) => {
            let bound = atom(&core.active.ints, &core.active.indices, *bound);
            begin_down(routines, core, *k, bound, may)
        }
        CodeLine::Forever => begin_forever(routines, core, may),
        CodeLine::Close => close(routines, core, may),
    }
}

/// One step of the program.
#[tactic(auto, unfolding(loop_tree::specs::Machine::step, loop_tree::specs::Machine::step_at))]
pub fn step(routines: &[Routine], core: &mut Core, may: bool) -> Move
    ensures { Did (step routines.now (shown routines.now core.old)) may routines.now core.old core.new result }
{
    let place = core.active.place;
    match line_at(routines, core.active.routine, place) {
        Some(line) => {
            core.active.place = place + 1;
            let came = obey(routines, core, line, may);
            if let Move::Waits = came {
                core.active.place = place;
            }
            came
        }
        None => leave(routines, core, may),
    }
}
