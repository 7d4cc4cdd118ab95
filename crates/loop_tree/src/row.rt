//! The rows of LoopC: the statements of one line that open no brace, by what they do.
use crate::atom::{Argument, Atom, Operator, Reference, TextAtom};
use a95_base::FaultKind;
use sqlite_items::{Boxed, Items};

/// What stands on the right of `iN = ..;`.
#[derive(Drop)]
pub enum IntValue {
    Atom(Atom),
    Operation(Atom, Operator, Atom),
    /// `bN[A]`
    Cell(u32, Atom),
    /// `f_wrap(A)`: what is left of the integer in 32 bits.
    Wrap(Atom),
    /// `f_pow(A, A)`: the wrapped power of wrapped arguments.
    Power(Atom, Atom),
    /// `f_xor(A, A)`
    Xor(Atom, Atom),
    /// `f_len(S)`
    Length(TextAtom),
    /// `f_index(S, S)`: the first place of the second text in the first, or 0.
    Index(TextAtom, TextAtom),
    /// `f_code(S)`: the byte of a text of one byte.
    Code(TextAtom),
    /// `f_cmp(S, S)`: -1, 0 or 1, the shorter text padded with blanks.
    Compare(TextAtom, TextAtom),
    /// `f_size(R)`: the number of cells.
    Size(Reference),
    /// `f_live(R)`: 1 where the block lives, else 0.
    Live(Reference),
    /// `f_depth()`: the number of active calls.
    Depth,
    /// `f_more()`: 1 where input is left, else 0.
    More,
    /// `f_look(A)`: 0 where an integer is next in the input, 1 at its end, 2 else.
    Look(Atom),
    /// `f_take(A)`: takes that integer from the input.
    Take(Atom),
}

/// What stands on the right of `sN = ..;`.
#[derive(Drop)]
pub enum TextValue {
    Atom(TextAtom),
    /// `cN[A]`
    Cell(u32, Atom),
    /// `f_cat(S, S)`
    Join(TextAtom, TextAtom),
    /// `f_sub(S, A, A)`: the bytes from one place to another.
    Part(TextAtom, Atom, Atom),
    /// `f_over(S, A, S)`: the first text, the bytes from a place on replaced by the second.
    Over(TextAtom, Atom, TextAtom),
    /// `f_fit(S, A)`: cut to a length, or padded with blanks.
    Fit(TextAtom, Atom),
    /// `f_trim(S)`
    Trim(TextAtom),
    /// `f_left(S)`: leading blanks moved to the end.
    Left(TextAtom),
    /// `f_right(S)`: trailing blanks moved to the front.
    Right(TextAtom),
    /// `f_chr(A)`: the text of one byte.
    Char(Atom),
}

/// A row that makes, changes, names or frees a block. The first number is that of the reference that is set.
#[derive(Drop)]
pub enum BlockRow {
    /// `bN[A] = A;`
    StoreInt(u32, Atom, Atom),
    /// `cN[A] = S;`
    StoreText(u32, Atom, TextAtom),
    /// `bN = f_new(A);`: a block of zeros for a declared variable.
    New(u32, Atom),
    /// `bN = f_temp(A);`: the same for a temporary.
    Temp(u32, Atom),
    /// `bN = f_copy(A);`: the same for the copy of an argument.
    Copy(u32, Atom),
    /// `bN = f_mark(A);`: the same for marks of places.
    Mark(u32, Atom),
    /// `cN = f_new_text(A, A);`: so many texts of so many blanks.
    NewText(u32, Atom, Atom),
    /// `cN = f_temp_text(A);`: so many empty texts.
    TempText(u32, Atom),
    /// `cN = f_copy_text(A);`
    CopyText(u32, Atom),
    /// `bN = bN;`
    SameInts(u32, u32),
    /// `cN = cN;`
    SameTexts(u32, u32),
    /// `f_grow(R, A);`: more cells at the end.
    Grow(Reference, Atom),
    /// `f_free(R);`
    Free(Reference),
}

/// A row that says where the program goes on.
#[derive(Drop)]
pub enum ControlRow {
    Break,
    Continue,
    Return,
    /// `fN(X, X);`
    Call(u32, Items<Argument>),
    /// `f_stop();`
    Stop,
    /// `f_fault(N);`
    Fault(FaultKind),
    /// `f_at(N);`: the line of the source that is being executed.
    At(u32),
}

/// A row that adds to the pending record, writes it, or skips a record of the input.
#[derive(Drop)]
pub enum RecordRow {
    /// `f_put_int(A);`
    PutInt(Atom),
    /// `f_put_log(A);`
    PutLog(Atom),
    /// `f_put_text(S);`
    PutText(TextAtom),
    /// `f_record();`
    Write,
    /// `f_skip();`
    Skip,
}

/// A line that opens and closes no brace.
#[derive(Drop)]
pub enum Row {
    /// `iN = ..;`
    Int(u32, IntValue),
    /// `sN = ..;`
    Text(u32, Boxed<TextValue>),
    Block(BlockRow),
    Control(ControlRow),
    Record(RecordRow),
}
