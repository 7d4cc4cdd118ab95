//! Copies of rows, each of its own memory.

ghost use Rattle.std.specs.Prelude.{◌≡◌, IfOk};

use crate::atom::Argument;
use crate::row::{BlockRow, ControlRow, IntValue, RecordRow, Row, TextValue};
use sqlite_items::{Boxed, Items};
use std::alloc::{AllocError, Global};

impl IntValue {
    pub fn copy(&self, alloc: Global) -> Result<IntValue, AllocError>
        ensures { IfOk result (λ v. v ≡ self.now) }
    {
        match self {
            IntValue::Atom(a) => Ok(IntValue::Atom(*a)),
            IntValue::Operation(a, operator, b) => Ok(IntValue::Operation(*a, *operator, *b)),
            IntValue::Cell(n, a) => Ok(IntValue::Cell(*n, *a)),
            IntValue::Wrap(a) => Ok(IntValue::Wrap(*a)),
            IntValue::Power(a, b) => Ok(IntValue::Power(*a, *b)),
            IntValue::Xor(a, b) => Ok(IntValue::Xor(*a, *b)),
            IntValue::Length(t) => Ok(IntValue::Length(t.copy(alloc)?)),
            IntValue::Index(t, u) => Ok(IntValue::Index(t.copy(alloc)?, u.copy(alloc)?)),
            IntValue::Code(t) => Ok(IntValue::Code(t.copy(alloc)?)),
            IntValue::Compare(t, u) => Ok(IntValue::Compare(t.copy(alloc)?, u.copy(alloc)?)),
            IntValue::Size(r) => Ok(IntValue::Size(*r)),
            IntValue::Live(r) => Ok(IntValue::Live(*r)),
            IntValue::Depth => Ok(IntValue::Depth),
            IntValue::More => Ok(IntValue::More),
            IntValue::Look(a) => Ok(IntValue::Look(*a)),
            IntValue::Take(a) => Ok(IntValue::Take(*a)),
        }
    }
}

impl TextValue {
    pub fn copy(&self, alloc: Global) -> Result<TextValue, AllocError>
        ensures { IfOk result (λ v. v ≡ self.now) }
    {
        match self {
            TextValue::Atom(t) => Ok(TextValue::Atom(t.copy(alloc)?)),
            TextValue::Cell(n, a) => Ok(TextValue::Cell(*n, *a)),
            TextValue::Join(t, u) => Ok(TextValue::Join(t.copy(alloc)?, u.copy(alloc)?)),
            TextValue::Part(t, a, b) => Ok(TextValue::Part(t.copy(alloc)?, *a, *b)),
            TextValue::Over(t, a, u) => Ok(TextValue::Over(t.copy(alloc)?, *a, u.copy(alloc)?)),
            TextValue::Fit(t, a) => Ok(TextValue::Fit(t.copy(alloc)?, *a)),
            TextValue::Trim(t) => Ok(TextValue::Trim(t.copy(alloc)?)),
            TextValue::Left(t) => Ok(TextValue::Left(t.copy(alloc)?)),
            TextValue::Right(t) => Ok(TextValue::Right(t.copy(alloc)?)),
            TextValue::Char(a) => Ok(TextValue::Char(*a)),
        }
    }
}

impl BlockRow {
    pub fn copy(&self, alloc: Global) -> Result<BlockRow, AllocError>
        ensures { IfOk result (λ r. r ≡ self.now) }
    {
        match self {
            BlockRow::StoreInt(n, i, a) => Ok(BlockRow::StoreInt(*n, *i, *a)),
            BlockRow::StoreText(n, i, t) => Ok(BlockRow::StoreText(*n, *i, t.copy(alloc)?)),
            BlockRow::New(n, a) => Ok(BlockRow::New(*n, *a)),
            BlockRow::Temp(n, a) => Ok(BlockRow::Temp(*n, *a)),
            BlockRow::Copy(n, a) => Ok(BlockRow::Copy(*n, *a)),
            BlockRow::Mark(n, a) => Ok(BlockRow::Mark(*n, *a)),
            BlockRow::NewText(n, a, b) => Ok(BlockRow::NewText(*n, *a, *b)),
            BlockRow::TempText(n, a) => Ok(BlockRow::TempText(*n, *a)),
            BlockRow::CopyText(n, a) => Ok(BlockRow::CopyText(*n, *a)),
            BlockRow::SameInts(n, m) => Ok(BlockRow::SameInts(*n, *m)),
            BlockRow::SameTexts(n, m) => Ok(BlockRow::SameTexts(*n, *m)),
            BlockRow::Grow(r, a) => Ok(BlockRow::Grow(*r, *a)),
            BlockRow::Free(r) => Ok(BlockRow::Free(*r)),
        }
    }
}

fn copy_arguments(alloc: Global, arguments: &[Argument]) -> Result<Items<Argument>, AllocError>
    ensures { IfOk result (λ copies. copies ≡ arguments.now) }
{
    let mut copies = Items::new(alloc);
    for argument in arguments {
        copies.push(argument.copy(alloc)?)?;
    }
    Ok(copies)
}

impl ControlRow {
    pub fn copy(&self, alloc: Global) -> Result<ControlRow, AllocError>
        ensures { IfOk result (λ r. r ≡ self.now) }
    {
        match self {
            ControlRow::Break => Ok(ControlRow::Break),
            ControlRow::Continue => Ok(ControlRow::Continue),
            ControlRow::Return => Ok(ControlRow::Return),
            ControlRow::Call(n, arguments) => {
                let copies = copy_arguments(alloc, arguments.as_slice())?;
                Ok(ControlRow::Call(*n, copies))
            }
            ControlRow::Stop => Ok(ControlRow::Stop),
            ControlRow::Fault(kind) => Ok(ControlRow::Fault(*kind)),
            ControlRow::At(n) => Ok(ControlRow::At(*n)),
        }
    }
}

impl RecordRow {
    pub fn copy(&self, alloc: Global) -> Result<RecordRow, AllocError>
        ensures { IfOk result (λ r. r ≡ self.now) }
    {
        match self {
            RecordRow::PutInt(a) => Ok(RecordRow::PutInt(*a)),
            RecordRow::PutLog(a) => Ok(RecordRow::PutLog(*a)),
            RecordRow::PutText(t) => Ok(RecordRow::PutText(t.copy(alloc)?)),
            RecordRow::Write => Ok(RecordRow::Write),
            RecordRow::Skip => Ok(RecordRow::Skip),
        }
    }
}

impl Row {
    pub fn copy(&self, alloc: Global) -> Result<Row, AllocError>
        ensures { IfOk result (λ r. r ≡ self.now) }
    {
        match self {
            Row::Int(n, value) => Ok(Row::Int(*n, value.copy(alloc)?)),
            Row::Text(n, value) => {
                let value = value.get().copy(alloc)?;
                Ok(Row::Text(*n, Boxed::new(alloc, value)?))
            }
            Row::Block(row) => Ok(Row::Block(row.copy(alloc)?)),
            Row::Control(row) => Ok(Row::Control(row.copy(alloc)?)),
            Row::Record(row) => Ok(Row::Record(row.copy(alloc)?)),
        }
    }
}
