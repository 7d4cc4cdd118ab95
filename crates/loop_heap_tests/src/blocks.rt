//! Blocks that are made, read, set, grown and freed, and references to them.
use a95_base::Bytes;
use loop_heap::{Blocks, Halt, Link};
use loop_tree::StuckState;
use loop_values::Links;
use std::alloc::{AllocError, Global};
use std::test::Fail;

/// A stuck state as its number.
fn numbered<T: Drop>(answer: Result<T, StuckState>) -> Result<T, u8> {
    match answer {
        Ok(value) => Ok(value),
        Err(why) => Err(why.number()),
    }
}

/// The same, with want of memory apart.
fn halted<T: Drop>(answer: Result<T, Halt>) -> Result<Result<T, u8>, AllocError> {
    match answer {
        Ok(value) => Ok(Ok(value)),
        Err(Halt::Stuck(why)) => Ok(Err(why.number())),
        Err(Halt::Memory) => Err(AllocError),
    }
}

/// Blocks, and references to them.
#[derive(Drop)]
struct Held {
    blocks: Blocks,
    links: Links,
}

fn nothing_held(alloc: Global) -> Held {
    Held {
        blocks: Blocks::new(alloc),
        links: Links::new(alloc),
    }
}

/// A call on blocks, by the numbers of the references that lead to them, and its answer. A reference that was never set
/// leads to none.
#[derive(Drop)]
enum BlockCall {
    /// The block's own number, or why there is none. The reference to it is the next.
    NewInts(i64, Result<u64, u8>),
    NewTexts(i64, i64, Result<u64, u8>),
    /// Another reference to the block.
    Copy(u32, u32),
    Number(u32, Option<u64>),
    Made(u64),
    Size(u32, Result<i64, u8>),
    Grow(u32, i64, Result<(), u8>),
    IsLive(u32, bool),
    Check(u32, Result<(), u8>),
    Free(u32, Result<(), u8>),
    FreeFrom(u64),
    Cell(CellCall),
}

/// The same on the cells of a block.
#[derive(Drop)]
enum CellCall {
    StoreInt(u32, i64, i64, Result<(), u8>),
    Int(u32, i64, Result<i64, u8>),
    StoreText(u32, i64, &'static str, Result<(), u8>),
    Text(u32, i64, Result<&'static str, u8>),
}

fn made_call(
    held: &mut Held,
    made: Result<Link, u8>,
    want: Result<u64, u8>,
) -> Result<bool, AllocError> {
    match made {
        Ok(link) => {
            let number = link.number();
            held.links.push(Some(link))?;
            Ok(want == Ok(number))
        }
        Err(why) => Ok(want == Err(why)),
    }
}

fn block_call(alloc: Global, held: &mut Held, call: &BlockCall) -> Result<bool, AllocError> {
    match call {
        BlockCall::NewInts(count, want) => {
            let made = halted(held.blocks.new_ints(*count))?;
            made_call(held, made, *want)
        }
        BlockCall::NewTexts(count, size, want) => {
            let made = halted(held.blocks.new_texts(*count, *size))?;
            made_call(held, made, *want)
        }
        BlockCall::Copy(n, from) => {
            let link = held.links.get(*from);
            held.links.set(*n, link)?;
            Ok(true)
        }
        BlockCall::Number(n, want) => Ok(held.links.get(*n).map(|link| link.number()) == *want),
        BlockCall::Made(want) => Ok(held.blocks.made() == *want),
        BlockCall::Size(n, want) => Ok(numbered(held.blocks.size(held.links.get(*n))) == *want),
        BlockCall::Grow(n, count, want) => Ok(
            halted(held.blocks.grow(held.links.get(*n), *count))? == *want,
        ),
        BlockCall::IsLive(n, want) => Ok(held.blocks.is_live(held.links.get(*n)) == *want),
        BlockCall::Check(n, want) => Ok(numbered(held.blocks.check(held.links.get(*n))) == *want),
        BlockCall::Free(n, want) => Ok(numbered(held.blocks.free(held.links.get(*n))) == *want),
        BlockCall::FreeFrom(mark) => {
            held.blocks.free_from(*mark);
            Ok(true)
        }
        BlockCall::Cell(call) => cell_call(alloc, held, call),
    }
}

fn cell_call(alloc: Global, held: &mut Held, call: &CellCall) -> Result<bool, AllocError> {
    match call {
        CellCall::StoreInt(n, i, value, want) => {
            Ok(numbered(held.blocks.store_int(held.links.get(*n), *i, *value)) == *want)
        }
        CellCall::Int(n, i, want) => Ok(
            numbered(held.blocks.int_cell(held.links.get(*n), *i)) == *want,
        ),
        CellCall::StoreText(n, i, text, want) => {
            let text = Bytes::from_slice(alloc, text.as_bytes())?;
            Ok(numbered(held.blocks.store_text(held.links.get(*n), *i, text)) == *want)
        }
        CellCall::Text(n, i, want) => Ok(
            match (held.blocks.text_cell(held.links.get(*n), *i), want) {
                (Ok(cell), Ok(text)) => cell == text.as_bytes(),
                (Err(why), Err(number)) => why.number() == *number,
                _ => false,
            },
        ),
    }
}

fn first_wrong(
    alloc: Global,
    held: &mut Held,
    calls: &[BlockCall],
) -> Result<Option<usize>, AllocError> {
    for (place, call) in calls.iter().enumerate() {
        if !block_call(alloc, held, call)? {
            return Ok(Some(place));
        }
    }
    Ok(None)
}

const LINK_CALLS: [BlockCall; 9] = [
    BlockCall::NewInts(1, Ok(0)),
    BlockCall::NewInts(1, Ok(1)),
    BlockCall::Copy(2, 1),
    BlockCall::Copy(70_000, 1),
    BlockCall::Copy(1, 3),
    BlockCall::Number(0, Some(0)),
    BlockCall::Number(1, None),
    BlockCall::Number(2, Some(1)),
    BlockCall::Number(70_000, Some(1)),
];

#[test]
fn links_are_read_back(rt: HostRuntime) -> Result<(), Fail> {
    let mut held = nothing_held(rt.alloc());
    assert_eq!(rt; first_wrong(rt.alloc(), &mut held, &LINK_CALLS)?, None);
    Ok(())
}

const CELL_CALLS: [BlockCall; 26] = [
    BlockCall::NewInts(3, Ok(0)),
    BlockCall::NewTexts(2, 2, Ok(1)),
    BlockCall::Made(2),
    BlockCall::Cell(CellCall::StoreInt(0, 2, 9, Ok(()))),
    BlockCall::Cell(CellCall::StoreInt(0, 3, 9, Err(1))),
    BlockCall::Cell(CellCall::StoreInt(1, 0, 9, Err(2))),
    BlockCall::Cell(CellCall::StoreInt(2, 0, 9, Err(2))),
    BlockCall::Cell(CellCall::Int(0, 0, Ok(0))),
    BlockCall::Cell(CellCall::Int(0, 2, Ok(9))),
    BlockCall::Cell(CellCall::Int(0, 3, Err(1))),
    BlockCall::Cell(CellCall::Int(0, -1, Err(1))),
    BlockCall::Cell(CellCall::Int(1, 0, Err(2))),
    BlockCall::Cell(CellCall::StoreText(1, 1, "xyz", Ok(()))),
    BlockCall::Cell(CellCall::Text(1, 0, Ok("  "))),
    BlockCall::Cell(CellCall::Text(1, 1, Ok("xyz"))),
    BlockCall::Cell(CellCall::Text(1, 2, Err(1))),
    BlockCall::Cell(CellCall::Text(0, 0, Err(2))),
    BlockCall::Grow(0, 2, Ok(())),
    BlockCall::Grow(1, 1, Ok(())),
    BlockCall::Grow(0, (1 << 24) - 4, Err(5)),
    BlockCall::Grow(0, -1, Err(5)),
    BlockCall::Grow(2, 0, Err(2)),
    BlockCall::Size(0, Ok(5)),
    BlockCall::Size(1, Ok(3)),
    BlockCall::Cell(CellCall::Int(0, 2, Ok(9))),
    BlockCall::Cell(CellCall::Text(1, 2, Ok(""))),
];

#[test]
fn blocks_hold_cells(rt: HostRuntime) -> Result<(), Fail> {
    let mut held = nothing_held(rt.alloc());
    assert_eq!(rt; first_wrong(rt.alloc(), &mut held, &CELL_CALLS)?, None);
    Ok(())
}

const SIZE_CALLS: [BlockCall; 15] = [
    BlockCall::NewInts(-1, Err(5)),
    BlockCall::NewTexts(-1, 1, Err(5)),
    BlockCall::NewInts((1 << 24) + 1, Err(5)),
    BlockCall::NewTexts((1 << 24) + 1, 1, Err(5)),
    BlockCall::NewInts(i64::MAX, Err(5)),
    BlockCall::NewTexts(i64::MAX, 1, Err(5)),
    BlockCall::NewInts(i64::MIN, Err(5)),
    BlockCall::NewTexts(i64::MIN, 1, Err(5)),
    BlockCall::NewTexts(1, -1, Err(5)),
    BlockCall::NewTexts(1, 256, Err(5)),
    BlockCall::NewInts(1 << 24, Ok(0)),
    BlockCall::Size(0, Ok(1 << 24)),
    BlockCall::Cell(CellCall::Int(0, (1 << 24) - 1, Ok(0))),
    BlockCall::NewTexts(0, 255, Ok(1)),
    BlockCall::Size(1, Ok(0)),
];

#[test]
fn sizes_have_bounds(rt: HostRuntime) -> Result<(), Fail> {
    let mut held = nothing_held(rt.alloc());
    assert_eq!(rt; first_wrong(rt.alloc(), &mut held, &SIZE_CALLS)?, None);
    Ok(())
}

/// One more block, with a number in its one cell.
fn add_block(held: &mut Held, number: i64) -> Result<(), Fail> {
    let Ok(link) = held.blocks.new_ints(1) else {
        return Err(Fail::new("no block was made"));
    };
    held.blocks.store_int(Some(link.again()), 0, number)?;
    held.links.push(Some(link))?;
    Ok(())
}

/// 300 blocks, each with its number, of which every third still lives. More are freed than live, so that the others move.
fn every_third(alloc: Global) -> Result<Held, Fail> {
    let mut held = nothing_held(alloc);
    for n in 0..300 {
        add_block(&mut held, n)?;
    }
    for n in 0..300 {
        if n % 3 != 0 {
            held.blocks.free(held.links.get(n))?;
        }
    }
    Ok(held)
}

/// Whether the block is there with its number, or isn't.
fn is_as_left(held: &Held, n: u32) -> bool {
    let lives = n % 3 == 0;
    let cell = if lives { Ok(i64::from(n)) } else { Err(2) };
    numbered(held.blocks.int_cell(held.links.get(n), 0)) == cell
        && held.blocks.is_live(held.links.get(n)) == lives
}

const FREE_CALLS: [BlockCall; 13] = [
    BlockCall::Free(1, Err(2)),
    BlockCall::Free(300, Err(2)),
    BlockCall::Check(3, Ok(())),
    BlockCall::Check(4, Err(2)),
    BlockCall::Made(300),
    BlockCall::NewInts(1, Ok(300)),
    BlockCall::FreeFrom(297),
    BlockCall::IsLive(300, false),
    BlockCall::IsLive(297, false),
    BlockCall::Cell(CellCall::Int(294, 0, Ok(294))),
    BlockCall::FreeFrom(0),
    BlockCall::IsLive(0, false),
    BlockCall::Made(301),
];

#[test]
fn freed_blocks_are_gone(rt: HostRuntime) -> Result<(), Fail> {
    let mut held = every_third(rt.alloc())?;
    for n in 0..300 {
        assert!(rt; is_as_left(&held, n), "block {n}");
    }
    assert_eq!(rt; first_wrong(rt.alloc(), &mut held, &FREE_CALLS)?, None);
    Ok(())
}

#[test]
fn cells_at_a_hint_are_read_and_set_at_once(rt: HostRuntime) -> Result<(), Fail> {
    let mut blocks = Blocks::new(rt.alloc());
    let Ok(link) = blocks.new_ints(2) else {
        return Err(Fail::new("no block was made"));
    };
    assert!(rt; blocks.store_at_hint(&link, 1, 5));
    assert_eq!(rt; blocks.cell_at_hint(&link, 1), Some(5));
    assert_eq!(rt; blocks.cell_at_hint(&link, 2), None);
    assert!(rt; !blocks.store_at_hint(&link, -1, 5));
    assert!(rt; blocks.free(Some(link.again())).is_ok());
    assert_eq!(rt; blocks.cell_at_hint(&link, 1), None);
    Ok(())
}
