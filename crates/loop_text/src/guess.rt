//! What a line is taken for, as `specs/Guess.antt` says: only some of its bytes are looked at.

ghost use Rattle.std.specs.Prelude.{◌≡◌, ◌%◌, ◌^◌, IfOk};
ghost use Rattle.loop_text.specs.Guess.{operator_on, operator_length, int_value_on, int_call_on, text_value_on, text_call_on};
ghost use Rattle.loop_text.specs.Guess.{ints_value_on, texts_value_on, variable_row_on, fault_of, built_in_on, word_on, line_on};
ghost use Rattle.loop_text.specs.Guess.{index_on, number_on, atom_on, text_on, reference_on, second_atom, second_text};
ghost use Rattle.loop_text.specs.Guess.{int_plain_on, text_join_on, text_part_on, text_over_on, text_fit_on, ints_row_on};
ghost use Rattle.loop_text.specs.Guess.{texts_row_on, loop_on};

use crate::atoms::{
    arguments, atom, begins, begins_atom, begins_text, behind_text, byte_at, index, is_digit,
    number, reference, skip, text,
};
use a95_base::FaultKind;
use loop_tree::{
    Atom, BlockRow, CodeLine, ControlRow, IntValue, Operator, RecordRow, Reference, Row, TextAtom,
    TextValue,
};
use sqlite_items::Boxed;
use std::alloc::{AllocError, Global};

#[tactic(auto, unfolding(crate::specs::Guess::operator_on))]
fn operator(bytes: &[u8]) -> Operator
    ensures { result ≡ operator_on bytes.now }
{
    let first = byte_at(bytes, 0);
    if first == b'+' {
        return Operator::Add;
    }
    if first == b'-' {
        return Operator::Subtract;
    }
    if first == b'*' {
        return Operator::Multiply;
    }
    if first == b'/' {
        return Operator::Divide;
    }
    if first == b'%' {
        return Operator::Remainder;
    }
    if first == b'<' {
        if byte_at(bytes, 1) == b'=' {
            return Operator::LessEqual;
        }
        return Operator::Less;
    }
    if first == b'=' {
        return Operator::Equal;
    }
    if first == b'!' {
        return Operator::NotEqual;
    }
    if first == b'&' {
        return Operator::And;
    }
    Operator::Or
}

fn operator_length(operator: Operator) -> usize
    ensures { result ≡ operator_length operator }
{
    match operator {
        Operator::LessEqual | Operator::Equal | Operator::NotEqual => 2,
        _ => 1,
    }
}

#[tactic(auto, unfolding(crate::specs::Guess::int_value_on, crate::specs::Guess::operation_on, crate::specs::Guess::int_cell_on))]
fn int_value(alloc: Global, bytes: &[u8]) -> Result<IntValue, AllocError>
    ensures { IfOk result (λ v. v ≡ int_value_on bytes.now) }
{
    let first = byte_at(bytes, 0);
    if begins_atom(first) {
        let (a, rest) = atom(bytes);
        if byte_at(rest, 0) == b' ' {
            let operator = operator(skip(rest, 1));
            let (b, _) = atom(skip(rest, operator_length(operator) + 2));
            return Ok(IntValue::Operation(a, operator, b));
        }
        return Ok(IntValue::Atom(a));
    }
    if first == b'b' {
        let (n, rest) = index(skip(bytes, 1));
        let (a, _) = atom(skip(rest, 1));
        return Ok(IntValue::Cell(n, a));
    }
    int_call(alloc, bytes)
}

fn one_atom(bytes: &[u8]) -> Atom
    ensures { result ≡ (atom_on bytes.now).value }
{
    let (a, _) = atom(bytes);
    a
}

fn one_reference(bytes: &[u8]) -> Reference
    ensures { result ≡ (reference_on bytes.now).value }
{
    let (r, _) = reference(bytes);
    r
}

/// The atom behind a comma and a blank.
fn second_atom(rest: &[u8]) -> Atom
    ensures { result ≡ second_atom rest.now }
{
    one_atom(skip(rest, 2))
}

fn second_text(alloc: Global, rest: &[u8]) -> Result<TextAtom, AllocError>
    ensures { IfOk result (λ t. t ≡ second_text rest.now) }
{
    text(alloc, skip(rest, 2))
}

#[tactic(auto, unfolding(crate::specs::Guess::int_call_on, crate::specs::Guess::int_index_on, crate::specs::Guess::int_compare_on))]
fn int_call(alloc: Global, bytes: &[u8]) -> Result<IntValue, AllocError>
    ensures { IfOk result (λ v. v ≡ int_call_on bytes.now) }
{
    if begins(bytes, b"f_len(") {
        let t = text(alloc, skip(bytes, 6))?;
        return Ok(IntValue::Length(t));
    }
    if begins(bytes, b"f_index(") {
        let t = text(alloc, skip(bytes, 8))?;
        let u = second_text(alloc, behind_text(skip(bytes, 8)))?;
        return Ok(IntValue::Index(t, u));
    }
    if begins(bytes, b"f_code(") {
        let t = text(alloc, skip(bytes, 7))?;
        return Ok(IntValue::Code(t));
    }
    if begins(bytes, b"f_cmp(") {
        let t = text(alloc, skip(bytes, 6))?;
        let u = second_text(alloc, behind_text(skip(bytes, 6)))?;
        return Ok(IntValue::Compare(t, u));
    }
    Ok(int_plain(bytes))
}

/// A built-in without texts.
#[tactic(auto, unfolding(crate::specs::Guess::int_plain_on, crate::specs::Guess::int_power_on, crate::specs::Guess::int_xor_on))]
fn int_plain(bytes: &[u8]) -> IntValue
    ensures { result ≡ int_plain_on bytes.now }
{
    if begins(bytes, b"f_wrap(") {
        return IntValue::Wrap(one_atom(skip(bytes, 7)));
    }
    if begins(bytes, b"f_pow(") {
        let (a, rest) = atom(skip(bytes, 6));
        return IntValue::Power(a, second_atom(rest));
    }
    if begins(bytes, b"f_xor(") {
        let (a, rest) = atom(skip(bytes, 6));
        return IntValue::Xor(a, second_atom(rest));
    }
    if begins(bytes, b"f_size(") {
        return IntValue::Size(one_reference(skip(bytes, 7)));
    }
    if begins(bytes, b"f_live(") {
        return IntValue::Live(one_reference(skip(bytes, 7)));
    }
    if begins(bytes, b"f_depth(") {
        return IntValue::Depth;
    }
    if begins(bytes, b"f_more(") {
        return IntValue::More;
    }
    if begins(bytes, b"f_look(") {
        return IntValue::Look(one_atom(skip(bytes, 7)));
    }
    IntValue::Take(one_atom(skip(bytes, 7)))
}

#[tactic(auto, unfolding(crate::specs::Guess::text_value_on, crate::specs::Guess::text_cell_on))]
fn text_value(alloc: Global, bytes: &[u8]) -> Result<TextValue, AllocError>
    ensures { IfOk result (λ v. v ≡ text_value_on bytes.now) }
{
    let first = byte_at(bytes, 0);
    if begins_text(first) {
        let t = text(alloc, bytes)?;
        return Ok(TextValue::Atom(t));
    }
    if first == b'c' {
        let (n, rest) = index(skip(bytes, 1));
        let (a, _) = atom(skip(rest, 1));
        return Ok(TextValue::Cell(n, a));
    }
    text_call(alloc, bytes)
}

#[tactic(auto, unfolding(crate::specs::Guess::text_call_on))]
fn text_call(alloc: Global, bytes: &[u8]) -> Result<TextValue, AllocError>
    ensures { IfOk result (λ v. v ≡ text_call_on bytes.now) }
{
    if begins(bytes, b"f_cat(") {
        return text_join(alloc, skip(bytes, 6));
    }
    if begins(bytes, b"f_sub(") {
        return text_part(alloc, skip(bytes, 6));
    }
    if begins(bytes, b"f_over(") {
        return text_over(alloc, skip(bytes, 7));
    }
    if begins(bytes, b"f_fit(") {
        return text_fit(alloc, skip(bytes, 6));
    }
    if begins(bytes, b"f_trim(") {
        let t = text(alloc, skip(bytes, 7))?;
        return Ok(TextValue::Trim(t));
    }
    if begins(bytes, b"f_left(") {
        let t = text(alloc, skip(bytes, 7))?;
        return Ok(TextValue::Left(t));
    }
    if begins(bytes, b"f_right(") {
        let t = text(alloc, skip(bytes, 8))?;
        return Ok(TextValue::Right(t));
    }
    Ok(TextValue::Char(one_atom(skip(bytes, 6))))
}

#[tactic(auto, unfolding(crate::specs::Guess::text_join_on))]
fn text_join(alloc: Global, bytes: &[u8]) -> Result<TextValue, AllocError>
    ensures { IfOk result (λ v. v ≡ text_join_on (text_on bytes.now)) }
{
    let t = text(alloc, bytes)?;
    let u = second_text(alloc, behind_text(bytes))?;
    Ok(TextValue::Join(t, u))
}

#[tactic(auto, unfolding(crate::specs::Guess::text_part_on))]
fn text_part(alloc: Global, bytes: &[u8]) -> Result<TextValue, AllocError>
    ensures { IfOk result (λ v. v ≡ text_part_on (text_on bytes.now)) }
{
    let t = text(alloc, bytes)?;
    let (a, rest) = atom(skip(behind_text(bytes), 2));
    Ok(TextValue::Part(t, a, second_atom(rest)))
}

#[tactic(auto, unfolding(crate::specs::Guess::text_over_on))]
fn text_over(alloc: Global, bytes: &[u8]) -> Result<TextValue, AllocError>
    ensures { IfOk result (λ v. v ≡ text_over_on (text_on bytes.now)) }
{
    let t = text(alloc, bytes)?;
    let (a, rest) = atom(skip(behind_text(bytes), 2));
    let u = second_text(alloc, rest)?;
    Ok(TextValue::Over(t, a, u))
}

#[tactic(auto, unfolding(crate::specs::Guess::text_fit_on))]
fn text_fit(alloc: Global, bytes: &[u8]) -> Result<TextValue, AllocError>
    ensures { IfOk result (λ v. v ≡ text_fit_on (text_on bytes.now)) }
{
    let t = text(alloc, bytes)?;
    Ok(TextValue::Fit(t, second_atom(behind_text(bytes))))
}

/// What stands behind `bN`.
#[tactic(auto, unfolding(crate::specs::Guess::ints_row_on, crate::specs::Guess::store_int_on))]
fn ints_row(n: u32, rest: &[u8]) -> BlockRow
    ensures { result ≡ ints_row_on (record { value = n; rest = rest.now }) }
{
    if byte_at(rest, 0) == b'[' {
        let (i, behind) = atom(skip(rest, 1));
        return BlockRow::StoreInt(n, i, one_atom(skip(behind, 4)));
    }
    ints_value(n, skip(rest, 3))
}

/// What stands behind `bN = `.
#[tactic(auto, unfolding(crate::specs::Guess::ints_value_on))]
fn ints_value(n: u32, bytes: &[u8]) -> BlockRow
    ensures { result ≡ ints_value_on n bytes.now }
{
    if begins(bytes, b"f_new(") {
        return BlockRow::New(n, one_atom(skip(bytes, 6)));
    }
    if begins(bytes, b"f_temp(") {
        return BlockRow::Temp(n, one_atom(skip(bytes, 7)));
    }
    if begins(bytes, b"f_copy(") {
        return BlockRow::Copy(n, one_atom(skip(bytes, 7)));
    }
    if begins(bytes, b"f_mark(") {
        return BlockRow::Mark(n, one_atom(skip(bytes, 7)));
    }
    let (m, _) = index(skip(bytes, 1));
    BlockRow::SameInts(n, m)
}

/// What stands behind `cN`.
#[tactic(auto, unfolding(crate::specs::Guess::texts_row_on, crate::specs::Guess::store_text_on))]
fn texts_row(alloc: Global, n: u32, rest: &[u8]) -> Result<BlockRow, AllocError>
    ensures { IfOk result (λ r. r ≡ texts_row_on (record { value = n; rest = rest.now })) }
{
    if byte_at(rest, 0) == b'[' {
        let (i, behind) = atom(skip(rest, 1));
        let t = text(alloc, skip(behind, 4))?;
        return Ok(BlockRow::StoreText(n, i, t));
    }
    Ok(texts_value(n, skip(rest, 3)))
}

/// What stands behind `cN = `.
#[tactic(auto, unfolding(crate::specs::Guess::texts_value_on, crate::specs::Guess::new_text_on))]
fn texts_value(n: u32, bytes: &[u8]) -> BlockRow
    ensures { result ≡ texts_value_on n bytes.now }
{
    if begins(bytes, b"f_new_text(") {
        let (a, rest) = atom(skip(bytes, 11));
        return BlockRow::NewText(n, a, second_atom(rest));
    }
    if begins(bytes, b"f_temp_text(") {
        return BlockRow::TempText(n, one_atom(skip(bytes, 12)));
    }
    if begins(bytes, b"f_copy_text(") {
        return BlockRow::CopyText(n, one_atom(skip(bytes, 12)));
    }
    let (m, _) = index(skip(bytes, 1));
    BlockRow::SameTexts(n, m)
}

/// A row that begins with a letter and a number.
#[tactic(auto, unfolding(crate::specs::Guess::variable_row_on, crate::specs::Guess::int_row_on, crate::specs::Guess::text_row_on, crate::specs::Guess::call_on))]
fn variable_row(alloc: Global, letter: u8, n: u32, rest: &[u8]) -> Result<Row, AllocError>
    ensures { IfOk result (λ r. r ≡ variable_row_on letter (record { value = n; rest = rest.now })) }
{
    if letter == b'i' {
        let value = int_value(alloc, skip(rest, 3))?;
        return Ok(Row::Int(n, value));
    }
    if letter == b's' {
        let value = text_value(alloc, skip(rest, 3))?;
        return Ok(Row::Text(n, Boxed::new(alloc, value)?));
    }
    if letter == b'b' {
        return Ok(Row::Block(ints_row(n, rest)));
    }
    if letter == b'c' {
        let row = texts_row(alloc, n, rest)?;
        return Ok(Row::Block(row));
    }
    let arguments = arguments(alloc, skip(rest, 1))?;
    Ok(Row::Control(ControlRow::Call(n, arguments)))
}

fn fault(bytes: &[u8]) -> FaultKind
    ensures { result ≡ fault_of ((number_on bytes.now).value % 2 ^ 8) }
{
    let (n, _) = number(bytes);
    FaultKind::from_number((n % 256) as u8).unwrap_or(FaultKind::ZeroDivide)
}

/// A row that begins with a built-in.
#[tactic(auto, unfolding(crate::specs::Guess::built_in_on, crate::specs::Guess::grow_on))]
fn built_in(alloc: Global, bytes: &[u8]) -> Result<Row, AllocError>
    ensures { IfOk result (λ r. r ≡ built_in_on bytes.now) }
{
    if begins(bytes, b"f_at(") {
        let (n, _) = index(skip(bytes, 5));
        return Ok(Row::Control(ControlRow::At(n)));
    }
    if begins(bytes, b"f_grow(") {
        let (r, rest) = reference(skip(bytes, 7));
        return Ok(Row::Block(BlockRow::Grow(r, second_atom(rest))));
    }
    if begins(bytes, b"f_free(") {
        return Ok(Row::Block(BlockRow::Free(one_reference(skip(bytes, 7)))));
    }
    if begins(bytes, b"f_stop(") {
        return Ok(Row::Control(ControlRow::Stop));
    }
    if begins(bytes, b"f_fault(") {
        return Ok(Row::Control(ControlRow::Fault(fault(skip(bytes, 8)))));
    }
    if begins(bytes, b"f_put_int(") {
        return Ok(Row::Record(RecordRow::PutInt(one_atom(skip(bytes, 10)))));
    }
    if begins(bytes, b"f_put_log(") {
        return Ok(Row::Record(RecordRow::PutLog(one_atom(skip(bytes, 10)))));
    }
    if begins(bytes, b"f_put_text(") {
        let t = text(alloc, skip(bytes, 11))?;
        return Ok(Row::Record(RecordRow::PutText(t)));
    }
    if begins(bytes, b"f_record(") {
        return Ok(Row::Record(RecordRow::Write));
    }
    Ok(Row::Record(RecordRow::Skip))
}

/// A loop, from behind `for (k`.
#[tactic(auto, unfolding(crate::specs::Guess::loop_on, crate::specs::Guess::for_on))]
fn for_loop(bytes: &[u8]) -> CodeLine
    ensures { result ≡ loop_on (index_on bytes.now) }
{
    let (k, rest) = index(bytes);
    let (first, behind) = atom(skip(rest, 3));
    if byte_at(behind, 0) == b';' {
        let (_, test) = index(skip(behind, 3));
        return CodeLine::ForUp(k, one_atom(skip(test, 3)));
    }
    CodeLine::ForDown(k, first)
}

#[tactic(auto, unfolding(crate::specs::Guess::word_on))]
fn word(alloc: Global, bytes: &[u8]) -> Result<CodeLine, AllocError>
    ensures { IfOk result (λ l. l ≡ word_on bytes.now) }
{
    if begins(bytes, b"f_") {
        let row = built_in(alloc, bytes)?;
        return Ok(CodeLine::Row(row));
    }
    if begins(bytes, b"for (k") {
        return Ok(for_loop(skip(bytes, 6)));
    }
    if begins(bytes, b"if (") {
        return Ok(CodeLine::If(one_atom(skip(bytes, 4))));
    }
    if begins(bytes, b"} else") {
        return Ok(CodeLine::Else);
    }
    if begins(bytes, b"}") {
        return Ok(CodeLine::Close);
    }
    if begins(bytes, b"while") {
        return Ok(CodeLine::Forever);
    }
    if begins(bytes, b"break") {
        return Ok(CodeLine::Row(Row::Control(ControlRow::Break)));
    }
    if begins(bytes, b"continue") {
        return Ok(CodeLine::Row(Row::Control(ControlRow::Continue)));
    }
    Ok(CodeLine::Row(Row::Control(ControlRow::Return)))
}

/// What a line below a function's head is taken for.
#[tactic(auto, unfolding(crate::specs::Guess::line_on))]
pub fn guess(alloc: Global, bytes: &[u8]) -> Result<CodeLine, AllocError>
    ensures { IfOk result (λ l. l ≡ line_on bytes.now) }
{
    if is_digit(byte_at(bytes, 1)) {
        let (n, rest) = index(skip(bytes, 1));
        let row = variable_row(alloc, byte_at(bytes, 0), n, rest)?;
        return Ok(CodeLine::Row(row));
    }
    word(alloc, bytes)
}
