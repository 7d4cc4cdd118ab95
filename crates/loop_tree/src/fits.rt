//! Every row is in range: its numbers are of 32 and 64 bits, and its texts are of bytes. These functions only read a row,
//! so that whoever holds one knows what `specs/Program.antt` asks of its numbers.

ghost use Rattle.loop_tree.specs.Program.{AreBytes, FitsAtom, FitsText, FitsReference, FitsArgument, FitsArguments, FitsInt};
ghost use Rattle.loop_tree.specs.Program.{FitsWords, FitsBlock, FitsControl, FitsRecord, FitsRow, FitsNumber};

use crate::atom::{Argument, Atom, Reference, TextAtom};
use crate::row::{BlockRow, ControlRow, IntValue, RecordRow, Row, TextValue};

pub fn number(n: &u32)
    ensures { FitsNumber n.now }
{
    let _n = *n;
}

pub fn atom(atom: &Atom)
    ensures { FitsAtom atom.now }
{
    match atom {
        Atom::Int(n) | Atom::Loop(n) => number(n),
        Atom::Number(z) => {
            let _z = *z;
        }
    }
}

fn bytes(bytes: &[u8])
    ensures { AreBytes bytes.now }
{
    let _count = bytes.len();
}

fn text(text: &TextAtom)
    ensures { FitsText text.now }
{
    match text {
        TextAtom::Variable(n) => number(n),
        TextAtom::Literal(literal) => bytes(literal.get().as_slice()),
    }
}

fn reference(reference: &Reference)
    ensures { FitsReference reference.now }
{
    match reference {
        Reference::Ints(n) | Reference::Texts(n) => number(n),
    }
}

fn argument(argument: &Argument)
    ensures { FitsArgument argument.now }
{
    match argument {
        Argument::Int(a) => atom(a),
        Argument::Text(t) => text(t),
        Argument::Block(r) => reference(r),
    }
}

fn arguments(arguments: &[Argument])
    ensures { FitsArguments arguments.now }
{
    for one in arguments {
        argument(one);
    }
}

fn int(value: &IntValue)
    ensures { FitsInt value.now }
{
    match value {
        IntValue::Atom(a) | IntValue::Wrap(a) | IntValue::Look(a) | IntValue::Take(a) => atom(a),
        IntValue::Operation(a, _, b) | IntValue::Power(a, b) | IntValue::Xor(a, b) => {
            atom(a);
            atom(b);
        }
        IntValue::Cell(n, a) => {
            number(n);
            atom(a);
        }
        IntValue::Length(t) | IntValue::Code(t) => text(t),
        IntValue::Index(t, u) | IntValue::Compare(t, u) => {
            text(t);
            text(u);
        }
        IntValue::Size(r) | IntValue::Live(r) => reference(r),
        IntValue::Depth | IntValue::More => {}
    }
}

fn words(value: &TextValue)
    ensures { FitsWords value.now }
{
    match value {
        TextValue::Atom(t) | TextValue::Trim(t) | TextValue::Left(t) | TextValue::Right(t) => {
            text(t)
        }
        TextValue::Cell(n, a) => {
            number(n);
            atom(a);
        }
        TextValue::Join(t, u) => {
            text(t);
            text(u);
        }
        TextValue::Part(t, a, b) => {
            text(t);
            atom(a);
            atom(b);
        }
        TextValue::Over(t, a, u) => {
            text(t);
            atom(a);
            text(u);
        }
        TextValue::Fit(t, a) => {
            text(t);
            atom(a);
        }
        TextValue::Char(a) => atom(a),
    }
}

fn block(row: &BlockRow)
    ensures { FitsBlock row.now }
{
    match row {
        BlockRow::StoreInt(n, a, b) | BlockRow::NewText(n, a, b) => {
            number(n);
            atom(a);
            atom(b);
        }
        BlockRow::StoreText(n, a, t) => {
            number(n);
            atom(a);
            text(t);
        }
        BlockRow::New(n, a)
        | BlockRow::Temp(n, a)
        | BlockRow::Copy(n, a)
        | BlockRow::Mark(n, a)
        | BlockRow::TempText(n, a)
        | BlockRow::CopyText(n, a) => {
            number(n);
            atom(a);
        }
        BlockRow::SameInts(n, m) | BlockRow::SameTexts(n, m) => {
            number(n);
            number(m);
        }
        BlockRow::Grow(r, a) => {
            reference(r);
            atom(a);
        }
        BlockRow::Free(r) => reference(r),
    }
}

fn control(row: &ControlRow)
    ensures { FitsControl row.now }
{
    match row {
        ControlRow::Call(n, passed) => {
            number(n);
            arguments(passed.as_slice());
        }
        ControlRow::At(n) => number(n),
        _ => {}
    }
}

fn record_row(row: &RecordRow)
    ensures { FitsRecord row.now }
{
    match row {
        RecordRow::PutInt(a) | RecordRow::PutLog(a) => atom(a),
        RecordRow::PutText(t) => text(t),
        RecordRow::Write | RecordRow::Skip => {}
    }
}

pub fn row(row: &Row)
    ensures { FitsRow row.now }
{
    match row {
        Row::Int(n, value) => {
            number(n);
            int(value);
        }
        Row::Text(n, value) => {
            number(n);
            words(value.get());
        }
        Row::Block(row) => block(row),
        Row::Control(row) => control(row),
        Row::Record(row) => record_row(row),
    }
}
