//! Blocks of cells: made and freed, read and set by references.
ghost use Rattle.std.specs.Prelude.{◌≡◌, ◌≤◌, ◌<◌, pos, [], IfOk, IfErr, IfSome, Some, IsSome, IsTrue, OnOk, OnErr, is_ok, false};
ghost use Rattle.std.specs.Prelude.{filter, length, slice_get, take};
ghost use Rattle.std.specs.Option.{option_copied};
ghost use Rattle.loop_tree.specs.State.{cells_at, cells_or_stuck, made_before};
ghost use Rattle.loop_tree.specs.Values.{and_then, ints_at, texts_at, int_cell, text_cell, cell_count, grown, is_live, zeros};
ghost use Rattle.loop_tree.specs.Values.{texts_of_length};
ghost use Rattle.loop_tree.specs.Machine.{changed, store_int, store_text, freed};
ghost use Rattle.loop_heap.specs.Halts.{IfStuck};
ghost use Rattle.loop_heap.specs.Heap.{with_made};
ghost use Rattle.loop_heap.specs.Contents.{cells_in};
ghost use Rattle.loop_heap.specs.Slots.{living, is_living, IsPlace, IsRising, slot_cells, without_cells};

use crate::halt::Halt;
use crate::link::Link;
use crate::slot::{self, Contents, Slot};
use a95_base::Bytes;
use loop_tree::StuckState;
use std::alloc::{AllocError, Global};
use std::marker::Model;

// With fewer freed slots than this, none is given back but at the end.
const MANY: usize = 64;

/// The blocks of a running program. Contracts see those that live, newest first, and how many were ever made.
#[derive(Drop)]
pub struct Blocks {
    alloc: Global,
    // In the order in which they were made.
    slots: Vec<Slot>,
    made: u64,
    // How many of the slots were freed, as far as known: when they are given back rests on it, and nothing else.
    holes: usize,
}

impl Model for Blocks {
    ghost use Rattle.loop_heap.specs.Heap.{Heap};
    ghost use Rattle.loop_heap.specs.Slots.{living, IsRising};

    ghost Value = { Heap };

    ghost view = { λ b. record { blocks = living b.slots.items; made = b.made } };

    ghost invariant = { λ b. IsRising 0 b.made b.slots.items };
}

impl Blocks {
    /// No block was made. Takes no memory.
    pub fn new(alloc: Global) -> Blocks
        ensures blocks { result.blocks ≡ [] }
        ensures made { result.made ≡ 0 }
    {
        Blocks {
            alloc,
            slots: Vec::new(alloc),
            made: 0,
            holes: 0,
        }
    }

    /// How many blocks were ever made: the number of the next one.
    pub fn made(&self) -> u64
        ensures { result ≡ self.now.made }
    {
        self.made
    }

    /// Cell i of a block of integers. `NoBlock`: there is no such block. `OutsideBlock`: it has no
    /// such cell.
    #[inline]
    pub fn int_cell(&self, link: Option<Link>, i: i64) -> Result<i64, StuckState>
        ensures { result ≡ and_then (ints_at self.now.blocks link) (λ cells. int_cell cells i) }
    {
        match slot_of(&self.slots, self.made, &link) {
            Some(slot) => slot.int_cell(i),
            None => Err(StuckState::NoBlock),
        }
    }

    /// Cell i of a block of integers, where the block is where it was when the reference was made.
    #[inline(always)]
    pub fn cell_at_hint(&self, link: &Link, i: i64) -> Option<i64>
        ensures { IfSome result
            (λ value. and_then (ints_at self.now.blocks (Some link.now)) (λ cells. int_cell cells i) ≡ Ok value) }
    {
        let Some(slot) = slot_at_hint(&self.slots, self.made, link) else {
            return None;
        };
        match slot.int_cell(i) {
            Ok(value) => Some(value),
            Err(_) => None,
        }
    }

    /// Cell i of a block of texts. `NoBlock`: there is no such block. `OutsideBlock`: it has no
    /// such cell.
    #[inline]
    pub fn text_cell(&self, link: Option<Link>, i: i64) -> Result<&[u8], StuckState>
        ensures ok { IfOk result (λ text. and_then (texts_at self.now.blocks link) (λ cells. text_cell cells i) ≡ Ok text.now) }
        ensures err { IfErr result (λ why. and_then (texts_at self.now.blocks link) (λ cells. text_cell cells i) ≡ Err why) }
    {
        match slot_of(&self.slots, self.made, &link) {
            Some(slot) => slot.text_cell(i),
            None => Err(StuckState::NoBlock),
        }
    }

    /// How many cells a block has. `NoBlock`: there is no such block.
    pub fn size(&self, link: Option<Link>) -> Result<i64, StuckState>
        ensures { result ≡ and_then (cells_at self.now.blocks link) (λ cells. Ok (pos (cell_count cells))) }
    {
        match slot_of(&self.slots, self.made, &link) {
            Some(slot) => slot.size(),
            None => Err(StuckState::NoBlock),
        }
    }

    /// Whether a reference leads to a living block.
    pub fn is_live(&self, link: Option<Link>) -> bool
        ensures { result ≡ is_live (cells_at self.now.blocks link) }
    {
        match slot_of(&self.slots, self.made, &link) {
            Some(slot) => slot.is_living(),
            None => false,
        }
    }

    /// The same as a result. `NoBlock`: there is no such block.
    pub fn check(&self, link: Option<Link>) -> Result<(), StuckState>
        ensures live { is_ok result ≡ is_live (cells_at self.now.blocks link) }
        ensures err { IfErr result (λ why. cells_at self.now.blocks link ≡ Err why) }
    {
        if self.is_live(link) {
            Ok(())
        } else {
            Err(StuckState::NoBlock)
        }
    }

    /// Sets cell i of a block of integers. `NoBlock`: there is no such block. `OutsideBlock`: it has no
    /// such cell.
    #[inline]
    pub fn store_int(&mut self, link: Option<Link>, i: i64, value: i64) -> Result<(), StuckState>
        ensures ok { OnOk result (changed self.old.blocks link (store_int i value) ≡ Ok self.new.blocks) }
        ensures err { IfErr result (λ why. changed self.old.blocks link (store_int i value) ≡ Err why) }
        ensures made { self.new.made ≡ self.old.made }
        ensures stays { OnErr result (self.new ≡ self.old) }
    {
        let at = place_of(&self.slots, self.made, &link);
        if at >= self.slots.len() {
            return Err(StuckState::NoBlock);
        }
        self.slots[at].store_int(i, value)
    }

    /// Sets cell i of a block of integers, where the block is where it was when the reference was made. Answers whether
    /// it did.
    #[inline(always)]
    pub fn store_at_hint(&mut self, link: &Link, i: i64, value: i64) -> bool
        ensures set { IsTrue result → changed self.old.blocks (Some link.now) (store_int i value) ≡ Ok self.new.blocks }
        ensures made { self.new.made ≡ self.old.made }
        ensures stays { result ≡ false → self.new ≡ self.old }
    {
        let Some(at) = place_at_hint(&self.slots, link) else {
            return false;
        };
        self.slots[at].store_int(i, value).is_ok()
    }

    /// Sets cell i of a block of texts. `NoBlock`: there is no such block. `OutsideBlock`: it has no
    /// such cell.
    #[inline]
    pub fn store_text(&mut self, link: Option<Link>, i: i64, value: Bytes) -> Result<(), StuckState>
        ensures ok { OnOk result (changed self.old.blocks link (store_text i value) ≡ Ok self.new.blocks) }
        ensures err { IfErr result (λ why. changed self.old.blocks link (store_text i value) ≡ Err why) }
        ensures made { self.new.made ≡ self.old.made }
        ensures stays { OnErr result (self.new ≡ self.old) }
    {
        let at = place_of(&self.slots, self.made, &link);
        if at >= self.slots.len() {
            return Err(StuckState::NoBlock);
        }
        self.slots[at].store_text(i, value)
    }

    /// Makes a block of zeros. `BlockSize`: the size is negative or above 2^24.
    pub fn new_ints(&mut self, count: i64) -> Result<Link, Halt>
        ensures ok { OnOk result (with_made self.old (zeros count) ≡ Ok self.new) }
        ensures link { IfOk result (λ link. link ≡ self.old.made) }
        ensures stuck { IfStuck result (λ why. zeros count ≡ Err why) }
        ensures stays { OnErr result (self.new ≡ self.old) }
    {
        let contents = slot::zeros(self.alloc, count)?;
        Ok(self.add(contents)?)
    }

    /// Makes a block of texts of so many blanks. `BlockSize`: the number of texts is negative or above 2^24, or
    /// their length is outside 0 to 255.
    pub fn new_texts(&mut self, count: i64, size: i64) -> Result<Link, Halt>
        ensures ok { OnOk result (with_made self.old (texts_of_length count size) ≡ Ok self.new) }
        ensures link { IfOk result (λ link. link ≡ self.old.made) }
        ensures stuck { IfStuck result (λ why. texts_of_length count size ≡ Err why) }
        ensures stays { OnErr result (self.new ≡ self.old) }
    {
        let contents = slot::texts_of_length(self.alloc, count, size)?;
        Ok(self.add(contents)?)
    }

    /// Adds so many cells at the end of a block, zeros or empty texts. `NoBlock`: there is no such block.
    /// `BlockSize`: the number is negative, or the block would have more than 2^24 cells.
    pub fn grow(&mut self, link: Option<Link>, count: i64) -> Result<(), Halt>
        ensures ok { OnOk result (changed self.old.blocks link (λ cells. grown cells count) ≡ Ok self.new.blocks) }
        ensures stuck { IfStuck result (λ why. changed self.old.blocks link (λ cells. grown cells count) ≡ Err why) }
        ensures made { self.new.made ≡ self.old.made }
        ensures stays { OnErr result (self.new ≡ self.old) }
    {
        let alloc = self.alloc;
        let at = place_of(&self.slots, self.made, &link);
        if at >= self.slots.len() {
            return Err(Halt::Stuck(StuckState::NoBlock));
        }
        self.slots[at].grow(alloc, count)
    }

    /// Gives a block back. `NoBlock`: there is no such block.
    pub fn free(&mut self, link: Option<Link>) -> Result<(), StuckState>
        ensures ok { OnOk result (self.new.blocks ≡ freed self.old.blocks link) }
        ensures live { is_ok result ≡ is_live (cells_at self.old.blocks link) }
        ensures err { IfErr result (λ why. cells_at self.old.blocks link ≡ Err why) }
        ensures made { self.new.made ≡ self.old.made }
        ensures stays { OnErr result (self.new ≡ self.old) }
    {
        let at = place_of(&self.slots, self.made, &link);
        if !free_at(&mut self.slots, at) {
            return Err(StuckState::NoBlock);
        }
        self.holes = give_back(&mut self.slots, self.made, self.holes.saturating_add(1));
        Ok(())
    }

    /// Gives all blocks back that have this number or a greater one.
    pub fn free_from(&mut self, mark: u64)
        ensures blocks { self.new.blocks ≡ made_before self.old.blocks mark }
        ensures made { self.new.made ≡ self.old.made }
    {
        let end = end_before(&self.slots, self.made, mark);
        if end < self.slots.len() {
            let holes = holes_from(&self.slots, end);
            self.slots.truncate(end);
            self.holes = give_back(&mut self.slots, self.made, self.holes.saturating_sub(holes));
        }
    }

    // A new slot at the end.
    fn add(&mut self, contents: Contents) -> Result<Link, AllocError>
        requires { IsSome (cells_in contents) }
        ensures ok { OnOk result (with_made self.old (cells_or_stuck (cells_in contents)) ≡ Ok self.new) }
        ensures link { IfOk result (λ link. link ≡ self.old.made) }
        ensures memory { OnErr result (self.new ≡ self.old) }
    {
        let number = self.made;
        if number == u64::MAX {
            return Err(AllocError);
        }
        let hint = self.slots.len();
        self.slots.push(Slot::new(number, contents))?;
        self.made = number + 1;
        Ok(Link::new(number, hint))
    }
}

// The place of the slot that a reference leads to, past the end where there is none. Mostly it is where it was.
#[inline]
fn place_of(slots: &[Slot], made: u64, link: &Option<Link>) -> usize
    requires { IsRising 0 made slots.now }
    ensures { IsPlace slots.now link.now result }
{
    match link {
        Some(link) => match place_at_hint(slots, link) {
            Some(at) => at,
            None => search(slots, made, link.number()),
        },
        None => slots.len(),
    }
}

// The place of the slot that a reference leads to, where that is where it was when the reference was made.
#[inline(always)]
fn place_at_hint(slots: &[Slot], link: &Link) -> Option<usize>
    ensures place { IfSome result (λ at. IsPlace slots.now (Some link.now) at) }
    ensures within { IfSome result (λ at. at < length slots.now) }
{
    let hint = link.hint();
    if hint < slots.len() && slots[hint].number() == link.number() {
        return Some(hint);
    }
    None
}

// That slot.
#[inline(always)]
fn slot_at_hint<'a>(slots: &'a [Slot], made: u64, link: &Link) -> Option<&'a Slot>
    requires { IsRising 0 made slots.now }
    ensures { IsSome result → cells_at (living slots.entry.now) (Some link.now) ≡ slot_cells (option_copied result) }
{
    let _ = made;
    match place_at_hint(slots, link) {
        Some(at) => nth(slots, at),
        None => None,
    }
}

// The place of the slot with this number, past the end where there is none.
#[cold]
#[inline(never)]
fn search(slots: &[Slot], made: u64, number: u64) -> usize
    requires { IsRising 0 made slots.now }
    ensures { IsPlace slots.now (Some number) result }
{
    let mut low = 0;
    let mut high = slots.len();
    while low < high {
        let middle = low + (high - low) / 2;
        let found = slots[middle].number();
        if found == number {
            return middle;
        }
        if found < number {
            low = middle + 1;
        } else {
            high = middle;
        }
    }
    slots.len()
}

// The slot that a reference leads to, if there is one.
#[inline]
fn slot_of<'a>(slots: &'a [Slot], made: u64, link: &Option<Link>) -> Option<&'a Slot>
    requires { IsRising 0 made slots.now }
    ensures { cells_at (living slots.entry.now) link.now ≡ slot_cells (option_copied result) }
{
    nth(slots, place_of(slots, made, link))
}

fn nth(slots: &[Slot], at: usize) -> Option<&Slot>
    ensures { option_copied result ≡ slice_get slots.now at }
{
    slots.get(at)
}

// Frees the cells at a place, if there are any. Answers whether there were.
fn free_at(slots: &mut Vec<Slot>, at: usize) -> bool
    ensures live { result ≡ is_live (slot_cells (slice_get slots.old.items at)) }
    ensures freed { IsTrue result → slots.new.items ≡ without_cells slots.old.items at }
    ensures stays { result ≡ false → slots.new.items ≡ slots.old.items }
{
    if at >= slots.len() || !slots[at].is_living() {
        return false;
    }
    slots[at].free();
    true
}

// How many slots were made before a mark.
fn end_before(slots: &[Slot], made: u64, mark: u64) -> usize
    requires { IsRising 0 made slots.now }
    ensures within { result ≤ length slots.now }
    ensures before { living (take result slots.now) ≡ made_before (living slots.now) mark }
{
    let mut end = slots.len();
    while end > 0 && slots[end - 1].number() >= mark {
        end -= 1;
    }
    end
}

// How many slots from a place on were freed.
fn holes_from(slots: &[Slot], from: usize) -> usize
    requires { from ≤ length slots.now }
{
    slots[from..]
        .iter()
        .filter(|slot| !slot.is_living())
        .count()
}

// Gives slots back that were freed: those at the end, and all where they are many. Answers how many are left.
fn give_back(slots: &mut Vec<Slot>, made: u64, holes: usize) -> usize
    requires { IsRising 0 made slots.old.items }
    ensures living { living slots.new.items ≡ living slots.old.items }
    ensures rising { IsRising 0 made slots.new.items }
{
    let end = end_of_living(slots);
    let left = holes.saturating_sub(slots.len() - end);
    slots.truncate(end);
    if left < MANY || left <= end / 2 {
        return left;
    }
    keep_living(slots);
    0
}

fn keep_living(slots: &mut Vec<Slot>)
    ensures { slots.new.items ≡ filter is_living slots.old.items }
{
    slots.retain(|slot| slot.is_living());
}

// How many slots there are without the freed ones at the end.
fn end_of_living(slots: &[Slot]) -> usize
    ensures within { result ≤ length slots.now }
    ensures living { living (take result slots.now) ≡ living slots.now }
{
    let mut end = slots.len();
    while end > 0 && !slots[end - 1].is_living() {
        end -= 1;
    }
    end
}
