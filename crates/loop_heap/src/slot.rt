//! Where blocks stand: a slot has the number of its block, and the cells while the block lives.
ghost use Rattle.std.specs.Prelude.{◌≡◌, ◌++◌, pos, IfOk, IfErr, OnOk, OnErr, length, take, replicate};
ghost use Rattle.loop_tree.specs.State.{Ints, Texts, cells_or_stuck};
ghost use Rattle.loop_tree.specs.Values.{and_then, ints_of, texts_of, int_cell, text_cell, stored, cell_count, size_within};
ghost use Rattle.loop_tree.specs.Values.{grown, zeros, texts_of_length};
ghost use Rattle.loop_tree.specs.Machine.{store_int, store_text};
ghost use Rattle.loop_heap.specs.Slots.{changed_slot, is_living};
ghost use Rattle.loop_heap.specs.Halts.{IfStuck};
ghost use Rattle.loop_heap.specs.Contents.{cells_in};

use crate::halt::Halt;
use a95_base::{Bytes, MOST_ELEMENTS};
use loop_tree::StuckState;
use std::alloc::{AllocError, Global};
use std::marker::Model;

/// A block has at most so many cells.
pub const LARGEST: usize = MOST_ELEMENTS as usize;

/// The cells of a block.
#[derive(Drop)]
pub enum Contents {
    Ints(Vec<i64>),
    Texts(Vec<Bytes>),
    /// The block was freed.
    Freed,
}

/// Contracts see the number, and the cells if there are any.
#[derive(Drop)]
pub struct Slot {
    number: u64,
    contents: Contents,
}

impl Model for Slot {
    ghost use Rattle.loop_heap.specs.Slots.{Kept};

    ghost Value = { Kept };

    ghost use Rattle.loop_heap.specs.Contents.{cells_in};

    ghost view = { λ slot. record { number = slot.number; cells = cells_in slot.contents } };
}

impl Slot {
    pub fn new(number: u64, contents: Contents) -> Slot
        ensures number { result.number ≡ number }
        ensures cells { result.cells ≡ cells_in contents }
    {
        Slot { number, contents }
    }

    pub fn number(&self) -> u64
        ensures { result ≡ self.now.number }
    {
        self.number
    }

    pub fn is_living(&self) -> bool
        ensures { result ≡ is_living self.now }
    {
        !matches!(self.contents, Contents::Freed)
    }

    pub fn int_cell(&self, i: i64) -> Result<i64, StuckState>
        ensures { result ≡ and_then (and_then (cells_or_stuck self.now.cells) ints_of) (λ cells. int_cell cells i) }
    {
        match &self.contents {
            Contents::Ints(cells) => read_int(cells, i),
            _ => Err(StuckState::NoBlock),
        }
    }

    pub fn text_cell(&self, i: i64) -> Result<&[u8], StuckState>
        ensures ok { IfOk result
            (λ text. and_then (and_then (cells_or_stuck self.now.cells) texts_of) (λ cells. text_cell cells i) ≡ Ok text.now) }
        ensures err { IfErr result
            (λ why. and_then (and_then (cells_or_stuck self.now.cells) texts_of) (λ cells. text_cell cells i) ≡ Err why) }
    {
        match &self.contents {
            Contents::Texts(cells) => read_text(cells, i),
            _ => Err(StuckState::NoBlock),
        }
    }

    pub fn size(&self) -> Result<i64, StuckState>
        ensures { result ≡ and_then (cells_or_stuck self.now.cells) (λ cells. Ok (pos (cell_count cells))) }
    {
        match &self.contents {
            Contents::Ints(cells) => Ok(cells.len() as i64),
            Contents::Texts(cells) => Ok(cells.len() as i64),
            Contents::Freed => Err(StuckState::NoBlock),
        }
    }

    pub fn store_int(&mut self, i: i64, value: i64) -> Result<(), StuckState>
        ensures number { self.new.number ≡ self.old.number }
        ensures ok { OnOk result (changed_slot self.old (store_int i value) ≡ Ok self.new) }
        ensures err { IfErr result (λ why. changed_slot self.old (store_int i value) ≡ Err why) }
        ensures stays { OnErr result (self.new ≡ self.old) }
    {
        match &mut self.contents {
            Contents::Ints(cells) => write(cells, i, value),
            _ => Err(StuckState::NoBlock),
        }
    }

    pub fn store_text(&mut self, i: i64, value: Bytes) -> Result<(), StuckState>
        ensures number { self.new.number ≡ self.old.number }
        ensures ok { OnOk result (changed_slot self.old (store_text i value) ≡ Ok self.new) }
        ensures err { IfErr result (λ why. changed_slot self.old (store_text i value) ≡ Err why) }
        ensures stays { OnErr result (self.new ≡ self.old) }
    {
        match &mut self.contents {
            Contents::Texts(cells) => write(cells, i, value),
            _ => Err(StuckState::NoBlock),
        }
    }

    /// So many more cells at the end.
    pub fn grow(&mut self, alloc: Global, count: i64) -> Result<(), Halt>
        ensures number { self.new.number ≡ self.old.number }
        ensures ok { OnOk result (changed_slot self.old (λ cells. grown cells count) ≡ Ok self.new) }
        ensures stuck { IfStuck result (λ why. changed_slot self.old (λ cells. grown cells count) ≡ Err why) }
        ensures stays { OnErr result (self.new ≡ self.old) }
    {
        match &mut self.contents {
            Contents::Ints(cells) => grow_ints(cells, count),
            Contents::Texts(cells) => grow_texts(alloc, cells, count),
            Contents::Freed => Err(Halt::Stuck(StuckState::NoBlock)),
        }
    }

    /// Gives the cells back.
    pub fn free(&mut self)
        ensures number { self.new.number ≡ self.old.number }
        ensures cells { self.new.cells ≡ None }
    {
        self.contents = Contents::Freed;
    }
}

fn read_int(cells: &[i64], i: i64) -> Result<i64, StuckState>
    ensures { result ≡ int_cell cells.now i }
{
    if i < 0 {
        return Err(StuckState::OutsideBlock);
    }
    match cells.get(i as usize) {
        Some(value) => Ok(*value),
        None => Err(StuckState::OutsideBlock),
    }
}

fn read_text(cells: &[Bytes], i: i64) -> Result<&[u8], StuckState>
    ensures ok { IfOk result (λ text. text_cell cells.now i ≡ Ok text.now) }
    ensures err { IfErr result (λ why. text_cell cells.now i ≡ Err why) }
{
    if i < 0 {
        return Err(StuckState::OutsideBlock);
    }
    match cells.get(i as usize) {
        Some(value) => Ok(value.as_slice()),
        None => Err(StuckState::OutsideBlock),
    }
}

fn write<T: Drop>(cells: &mut [T], i: i64, value: T) -> Result<(), StuckState>
    ensures ok { OnOk result (stored cells.old i value ≡ Ok cells.new) }
    ensures err { IfErr result (λ why. stored cells.old i value ≡ Err why) }
    ensures stays { OnErr result (cells.new ≡ cells.old) }
{
    if i < 0 {
        return Err(StuckState::OutsideBlock);
    }
    let place = i as usize;
    if place >= cells.len() {
        return Err(StuckState::OutsideBlock);
    }
    cells[place] = value;
    Ok(())
}

// The number of cells, where so many may be added to those that there are.
fn size_within(limit: usize, count: i64) -> Result<usize, StuckState>
    ensures { result ≡ size_within limit count }
{
    if count < 0 || count as usize > limit {
        return Err(StuckState::BlockSize);
    }
    Ok(count as usize)
}

fn grow_ints(cells: &mut Vec<i64>, count: i64) -> Result<(), Halt>
    ensures ok { OnOk result (grown (Ints cells.old.items) count ≡ Ok (Ints cells.new.items)) }
    ensures stuck { IfStuck result (λ why. grown (Ints cells.old.items) count ≡ Err why) }
    ensures stays { OnErr result (cells.new.items ≡ cells.old.items) }
{
    let length = cells.len();
    let more = size_within(LARGEST.saturating_sub(length), count)?;
    cells.resize(length + more, 0)?;
    Ok(())
}

fn grow_texts(alloc: Global, cells: &mut Vec<Bytes>, count: i64) -> Result<(), Halt>
    ensures ok { OnOk result (grown (Texts cells.old.items) count ≡ Ok (Texts cells.new.items)) }
    ensures stuck { IfStuck result (λ why. grown (Texts cells.old.items) count ≡ Err why) }
    ensures stays { OnErr result (cells.new.items ≡ cells.old.items) }
{
    let length = cells.len();
    let more = size_within(LARGEST.saturating_sub(length), count)?;
    if add_texts(alloc, cells, more, 0).is_err() {
        cells.truncate(length);
        return Err(Halt::Memory);
    }
    Ok(())
}

// Adds so many texts of so many blanks.
fn add_texts(
    alloc: Global,
    cells: &mut Vec<Bytes>,
    count: usize,
    size: usize,
) -> Result<(), AllocError>
    ensures ok { OnOk result (cells.new.items ≡ cells.old.items ++ replicate count (replicate size 32)) }
    ensures prefix { take (length cells.old.items) cells.new.items ≡ cells.old.items }
{
    for _ in 0..count {
        cells.push(blanks(alloc, size)?)?;
    }
    Ok(())
}

fn blanks(alloc: Global, size: usize) -> Result<Bytes, AllocError>
    ensures { IfOk result (λ text. text ≡ replicate size 32) }
{
    let mut bytes = Vec::with_capacity(alloc, size)?;
    bytes.resize(size, b' ')?;
    Ok(Bytes::from_vec(bytes))
}

/// So many zeros, each of which takes eight bytes.
pub fn zeros(alloc: Global, count: i64) -> Result<Contents, Halt>
    ensures ok { IfOk result (λ contents. cells_or_stuck (cells_in contents) ≡ zeros count) }
    ensures stuck { IfStuck result (λ why. zeros count ≡ Err why) }
{
    let length = size_within(LARGEST, count)?;
    let mut cells = Vec::with_capacity(alloc, length)?;
    cells.resize(length, 0)?;
    Ok(Contents::Ints(cells))
}

/// So many texts, of so many blanks each.
pub fn texts_of_length(alloc: Global, count: i64, size: i64) -> Result<Contents, Halt>
    ensures ok { IfOk result (λ contents. cells_or_stuck (cells_in contents) ≡ texts_of_length count size) }
    ensures stuck { IfStuck result (λ why. texts_of_length count size ≡ Err why) }
{
    let length = size_within(LARGEST, count)?;
    let size = size_within(255, size)?;
    let mut cells = Vec::with_capacity(alloc, length)?;
    add_texts(alloc, &mut cells, length, size)?;
    Ok(Contents::Texts(cells))
}
