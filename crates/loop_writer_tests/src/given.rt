//! A program whose pieces were made by hand, and its text.
ghost use Rattle.std.specs.Prelude.{IfOk};
ghost use Rattle.loop_writer.specs.Pieces.{BeginsMain};

use a95_base::{Bytes, FaultKind, Memory, Stack};
use loop_tree::{
    Argument, Atom, BlockRow, Code, ControlRow, IntValue, Letter, Operator, RecordRow, Reference,
    Row, TextAtom, TextValue,
};
use loop_writer::{Piece, Producer};
use sqlite_items::{Boxed, Items};
use std::alloc::{AllocError, Global};

/// Pieces in a list, given from its front.
#[derive(Drop)]
pub struct Prepared {
    pieces: Stack<Piece>,
}

impl Producer for Prepared {
    ghost left = { λ g. g.pieces };

    fn next(&mut self, _alloc: Global) -> Result<Option<Piece>, Memory> {
        match self.pieces.pop() {
            Some(Piece::Code(code)) => {
                if code.in_loop() {
                    return Err(Memory);
                }
                Ok(Some(Piece::Code(code)))
            }
            Some(Piece::Begin(parameters)) => Ok(Some(Piece::Begin(parameters))),
            None => Ok(None),
        }
    }
}

/// The text of the program that `given` gives.
pub const TEXT: &str = "/* LoopC 1 */\nvoid f0() {\n\
    if (i0) {\nf_stop();\n}\nif (-1) {\nreturn;\n} else {\nf_record();\n}\n\
    for (k1 = 0; k1 < 3; k1 = k1 + 1) {\ncontinue;\n}\n\
    for (k2 = i4 - 1; k2 >= 0; k2 = k2 - 1) {\nbreak;\n}\nwhile (1) {\nbreak;\n}\n\
    f_at(4294967295);\nf1(k1, \"a\\042b\\012\", c2);\n}\n\
    void f1(i0, s1, c2) {\n\
    i3 = i0 % -9223372036854775808;\ns4 = f_over(s1, 2, \"\");\nb5 = f_new(i0);\nf_fault(15);\n}\n";

fn literal(alloc: Global, text: &str) -> Result<TextAtom, AllocError> {
    let bytes = Bytes::from_slice(alloc, text.as_bytes())?;
    Ok(TextAtom::Literal(Boxed::new(alloc, bytes)?))
}

fn choices(alloc: Global) -> Result<Code, AllocError> {
    let mut code = Code::new(alloc);
    let mut stopping = code.branch(alloc);
    stopping.push_row(Row::Control(ControlRow::Stop))?;
    code.push_if(Atom::Int(0), stopping)?;
    let mut one = code.branch(alloc);
    one.push_row(Row::Control(ControlRow::Return))?;
    let mut other = code.branch(alloc);
    other.push_row(Row::Record(RecordRow::Write))?;
    code.push_if_else(alloc, Atom::Number(-1), one, other)?;
    Ok(code)
}

fn loops(alloc: Global) -> Result<Code, AllocError> {
    let mut code = Code::new(alloc);
    let mut up = code.loop_body(alloc);
    up.push_row(Row::Control(ControlRow::Continue))?;
    code.push_for_up(1, Atom::Number(3), up)?;
    let mut down = code.loop_body(alloc);
    down.push_row(Row::Control(ControlRow::Break))?;
    code.push_for_down(2, Atom::Int(4), down)?;
    let mut forever = code.loop_body(alloc);
    forever.push_row(Row::Control(ControlRow::Break))?;
    code.push_forever(forever)?;
    Ok(code)
}

fn call(alloc: Global) -> Result<Code, AllocError> {
    let mut arguments = Items::new(alloc);
    arguments.push(Argument::Int(Atom::Loop(1)))?;
    arguments.push(Argument::Text(literal(alloc, "a\"b\n")?))?;
    arguments.push(Argument::Block(Reference::Texts(2)))?;
    let mut code = Code::new(alloc);
    code.push_row(Row::Control(ControlRow::At(u32::MAX)))?;
    code.push_row(Row::Control(ControlRow::Call(1, arguments)))?;
    Ok(code)
}

fn parameters(alloc: Global) -> Result<Items<Letter>, AllocError> {
    let mut letters = Items::new(alloc);
    letters.push(Letter::Int)?;
    letters.push(Letter::Text)?;
    letters.push(Letter::Texts)?;
    Ok(letters)
}

fn rows(alloc: Global) -> Result<Code, AllocError> {
    let mut code = Code::new(alloc);
    let rest = IntValue::Operation(Atom::Int(0), Operator::Remainder, Atom::Number(i64::MIN));
    code.push_row(Row::Int(3, rest))?;
    let put_over = TextValue::Over(TextAtom::Variable(1), Atom::Number(2), literal(alloc, "")?);
    code.push_row(Row::Text(4, Boxed::new(alloc, put_over)?))?;
    code.push_row(Row::Block(BlockRow::New(5, Atom::Int(0))))?;
    code.push_row(Row::Control(ControlRow::Fault(FaultKind::DummyShape)))?;
    Ok(code)
}

/// The pieces of two functions.
pub fn given(alloc: Global) -> Result<Prepared, AllocError>
    ensures { IfOk result (λ g. BeginsMain g.pieces) }
{
    let mut pieces = Stack::new(alloc);
    pieces.push(Piece::Code(rows(alloc)?))?;
    pieces.push(Piece::Begin(parameters(alloc)?))?;
    pieces.push(Piece::Code(call(alloc)?))?;
    pieces.push(Piece::Code(loops(alloc)?))?;
    pieces.push(Piece::Code(choices(alloc)?))?;
    pieces.push(Piece::Begin(Items::new(alloc)))?;
    Ok(Prepared { pieces })
}
