//! How rows and lines are written: `Display` gives the spelling of `specs/Text.antt`.

ghost use Rattle.std.specs.Prelude.{Some, decimal};
ghost use Rattle.loop_tree.specs.Text.{atom_text, text_atom_text, reference_text, argument_text, listed, listed_by, call_text};
ghost use Rattle.loop_tree.specs.Text.{set_text_of, int_value_text, text_value_text, block_row_text, control_row_text};
ghost use Rattle.loop_tree.specs.Text.{record_row_text, row_text, spell};

use crate::atom::{Argument, Atom, Reference, TextAtom};
use crate::row::{BlockRow, ControlRow, IntValue, RecordRow, Row, TextValue};
use crate::tree::CodeLine;
use std::fmt::{self, Display};

/// The arguments of a call.
#[derive(Clone, Copy)]
struct Arguments<'a>(&'a [Argument]);

impl fmt::Display for Arguments<'_> {
    ghost output = { λ a. Some (listed_by argument_text a.0.now) };

    fn fmt<W: fmt::Write>(&self, f: &mut fmt::Formatter<W>) -> fmt::Result {
        let Some((first, others)) = self.0.split_first() else {
            return Ok(());
        };
        write!(f, "{first}")?;
        let others = OtherArguments(others);
        write!(f, "{others}")
    }
}

/// The arguments behind the first.
#[derive(Clone, Copy)]
struct OtherArguments<'a>(&'a [Argument]);

impl fmt::Display for OtherArguments<'_> {
    ghost use Rattle.std.specs.Prelude.{codes, flat_map, ◌++◌};

    ghost output = { λ a. Some (flat_map (λ y. codes ", " ++ argument_text y) a.0.now) };

    fn fmt<W: fmt::Write>(&self, f: &mut fmt::Formatter<W>) -> fmt::Result {
        for argument in self.0 {
            write!(f, ", {argument}")?;
        }
        Ok(())
    }
}

/// The call of a built-in: its name and what it reads.
#[derive(Clone, Copy)]
struct OfAtom(&'static str, Atom);

impl fmt::Display for OfAtom {
    ghost output = { λ c. Some (call_text c.0.now (atom_text c.1)) };

    fn fmt<W: fmt::Write>(&self, f: &mut fmt::Formatter<W>) -> fmt::Result {
        let OfAtom(name, a) = self;
        write!(f, "{name}({a})")
    }
}

#[derive(Clone, Copy)]
struct OfAtoms(&'static str, Atom, Atom);

impl fmt::Display for OfAtoms {
    ghost use Rattle.std.specs.Prelude.{[], ◌∷◌};

    ghost output = { λ c. Some (call_text c.0.now (listed (atom_text c.1 ∷ atom_text c.2 ∷ []))) };

    fn fmt<W: fmt::Write>(&self, f: &mut fmt::Formatter<W>) -> fmt::Result {
        let OfAtoms(name, a, b) = self;
        write!(f, "{name}({a}, {b})")
    }
}

#[derive(Clone, Copy)]
struct OfText<'a>(&'static str, &'a TextAtom);

impl fmt::Display for OfText<'_> {
    ghost output = { λ c. Some (call_text c.0.now (text_atom_text c.1.now)) };

    fn fmt<W: fmt::Write>(&self, f: &mut fmt::Formatter<W>) -> fmt::Result {
        let OfText(name, t) = self;
        write!(f, "{name}({t})")
    }
}

#[derive(Clone, Copy)]
struct OfTexts<'a>(&'static str, &'a TextAtom, &'a TextAtom);

impl fmt::Display for OfTexts<'_> {
    ghost use Rattle.std.specs.Prelude.{[], ◌∷◌};

    ghost output = { λ c. Some (call_text c.0.now (listed (text_atom_text c.1.now ∷ text_atom_text c.2.now ∷ []))) };

    fn fmt<W: fmt::Write>(&self, f: &mut fmt::Formatter<W>) -> fmt::Result {
        let OfTexts(name, t, u) = self;
        write!(f, "{name}({t}, {u})")
    }
}

#[derive(Clone, Copy)]
struct OfReference(&'static str, Reference);

impl fmt::Display for OfReference {
    ghost output = { λ c. Some (call_text c.0.now (reference_text c.1)) };

    fn fmt<W: fmt::Write>(&self, f: &mut fmt::Formatter<W>) -> fmt::Result {
        let OfReference(name, r) = self;
        write!(f, "{name}({r})")
    }
}

#[derive(Clone, Copy)]
struct OfNumber(&'static str, u32);

impl fmt::Display for OfNumber {
    ghost output = { λ c. Some (call_text c.0.now (decimal c.1)) };

    fn fmt<W: fmt::Write>(&self, f: &mut fmt::Formatter<W>) -> fmt::Result {
        let OfNumber(name, n) = self;
        write!(f, "{name}({n})")
    }
}

/// The call of a function: its number and what is passed.
#[derive(Clone, Copy)]
struct OfFunction<'a>(u32, Arguments<'a>);

impl fmt::Display for OfFunction<'_> {
    ghost use Rattle.std.specs.Prelude.{codes, ◌++◌};

    ghost output = { λ c. Some (call_text (codes "f" ++ decimal c.0) (listed_by argument_text c.1.0.now)) };

    fn fmt<W: fmt::Write>(&self, f: &mut fmt::Formatter<W>) -> fmt::Result {
        let OfFunction(n, arguments) = self;
        write!(f, "f{n}({arguments})")
    }
}

/// A cell of a block: the letter and the number of the reference, and the index.
#[derive(Clone, Copy)]
struct Cell(&'static str, u32, Atom);

impl fmt::Display for Cell {
    ghost use Rattle.std.specs.Prelude.{codes, [], ◌∷◌};
    ghost use Rattle.std.specs.List.{concat};

    ghost output = { λ c. Some (concat (c.0.now ∷ decimal c.1 ∷ codes "[" ∷ atom_text c.2 ∷ codes "]" ∷ [])) };

    fn fmt<W: fmt::Write>(&self, f: &mut fmt::Formatter<W>) -> fmt::Result {
        let Cell(letter, n, a) = self;
        write!(f, "{letter}{n}[{a}]")
    }
}

/// A reference that is set to a block: its letter and number, and the built-in that makes the block.
#[derive(Clone, Copy)]
struct Makes(&'static str, u32, OfAtom);

impl fmt::Display for Makes {
    ghost output = { λ m. Some (set_text_of m.0.now m.1 (call_text m.2.0.now (atom_text m.2.1))) };

    fn fmt<W: fmt::Write>(&self, f: &mut fmt::Formatter<W>) -> fmt::Result {
        let Makes(letter, n, made) = self;
        write!(f, "{letter}{n} = {made}")
    }
}

impl fmt::Display for IntValue {
    ghost output = { λ v. Some (int_value_text v) };

    fn fmt<W: fmt::Write>(&self, f: &mut fmt::Formatter<W>) -> fmt::Result {
        match self {
            IntValue::Atom(a) => a.fmt(f),
            IntValue::Operation(a, operator, b) => write!(f, "{a} {operator} {b}"),
            IntValue::Cell(n, a) => Cell("b", *n, *a).fmt(f),
            IntValue::Wrap(a) => OfAtom("f_wrap", *a).fmt(f),
            IntValue::Power(a, b) => OfAtoms("f_pow", *a, *b).fmt(f),
            IntValue::Xor(a, b) => OfAtoms("f_xor", *a, *b).fmt(f),
            IntValue::Length(t) => OfText("f_len", t).fmt(f),
            IntValue::Index(t, u) => OfTexts("f_index", t, u).fmt(f),
            IntValue::Code(t) => OfText("f_code", t).fmt(f),
            IntValue::Compare(t, u) => OfTexts("f_cmp", t, u).fmt(f),
            IntValue::Size(r) => OfReference("f_size", *r).fmt(f),
            IntValue::Live(r) => OfReference("f_live", *r).fmt(f),
            IntValue::Depth => f.write_str("f_depth()"),
            IntValue::More => f.write_str("f_more()"),
            IntValue::Look(a) => OfAtom("f_look", *a).fmt(f),
            IntValue::Take(a) => OfAtom("f_take", *a).fmt(f),
        }
    }
}

impl fmt::Display for TextValue {
    ghost output = { λ v. Some (text_value_text v) };

    fn fmt<W: fmt::Write>(&self, f: &mut fmt::Formatter<W>) -> fmt::Result {
        match self {
            TextValue::Atom(t) => t.fmt(f),
            TextValue::Cell(n, a) => Cell("c", *n, *a).fmt(f),
            TextValue::Join(t, u) => OfTexts("f_cat", t, u).fmt(f),
            TextValue::Part(t, a, b) => write!(f, "f_sub({t}, {a}, {b})"),
            TextValue::Over(t, a, u) => write!(f, "f_over({t}, {a}, {u})"),
            TextValue::Fit(t, a) => write!(f, "f_fit({t}, {a})"),
            TextValue::Trim(t) => OfText("f_trim", t).fmt(f),
            TextValue::Left(t) => OfText("f_left", t).fmt(f),
            TextValue::Right(t) => OfText("f_right", t).fmt(f),
            TextValue::Char(a) => OfAtom("f_chr", *a).fmt(f),
        }
    }
}

impl fmt::Display for BlockRow {
    ghost output = { λ r. Some (block_row_text r) };

    fn fmt<W: fmt::Write>(&self, f: &mut fmt::Formatter<W>) -> fmt::Result {
        match self {
            BlockRow::StoreInt(n, i, a) => write!(f, "b{n}[{i}] = {a}"),
            BlockRow::StoreText(n, i, t) => write!(f, "c{n}[{i}] = {t}"),
            BlockRow::New(n, a) => Makes("b", *n, OfAtom("f_new", *a)).fmt(f),
            BlockRow::Temp(n, a) => Makes("b", *n, OfAtom("f_temp", *a)).fmt(f),
            BlockRow::Copy(n, a) => Makes("b", *n, OfAtom("f_copy", *a)).fmt(f),
            BlockRow::Mark(n, a) => Makes("b", *n, OfAtom("f_mark", *a)).fmt(f),
            BlockRow::NewText(n, a, b) => write!(f, "c{n} = f_new_text({a}, {b})"),
            BlockRow::TempText(n, a) => Makes("c", *n, OfAtom("f_temp_text", *a)).fmt(f),
            BlockRow::CopyText(n, a) => Makes("c", *n, OfAtom("f_copy_text", *a)).fmt(f),
            BlockRow::SameInts(n, m) => write!(f, "b{n} = b{m}"),
            BlockRow::SameTexts(n, m) => write!(f, "c{n} = c{m}"),
            BlockRow::Grow(r, a) => write!(f, "f_grow({r}, {a})"),
            BlockRow::Free(r) => OfReference("f_free", *r).fmt(f),
        }
    }
}

impl fmt::Display for ControlRow {
    ghost output = { λ r. Some (control_row_text r) };

    fn fmt<W: fmt::Write>(&self, f: &mut fmt::Formatter<W>) -> fmt::Result {
        match self {
            ControlRow::Break => f.write_str("break"),
            ControlRow::Continue => f.write_str("continue"),
            ControlRow::Return => f.write_str("return"),
            ControlRow::Call(n, arguments) => {
                let arguments = Arguments(arguments.as_slice());
                OfFunction(*n, arguments).fmt(f)
            }
            ControlRow::Stop => f.write_str("f_stop()"),
            ControlRow::Fault(kind) => OfNumber("f_fault", u32::from(kind.number())).fmt(f),
            ControlRow::At(n) => OfNumber("f_at", *n).fmt(f),
        }
    }
}

impl fmt::Display for RecordRow {
    ghost output = { λ r. Some (record_row_text r) };

    fn fmt<W: fmt::Write>(&self, f: &mut fmt::Formatter<W>) -> fmt::Result {
        match self {
            RecordRow::PutInt(a) => OfAtom("f_put_int", *a).fmt(f),
            RecordRow::PutLog(a) => OfAtom("f_put_log", *a).fmt(f),
            RecordRow::PutText(t) => OfText("f_put_text", t).fmt(f),
            RecordRow::Write => f.write_str("f_record()"),
            RecordRow::Skip => f.write_str("f_skip()"),
        }
    }
}

impl fmt::Display for Row {
    ghost output = { λ r. Some (row_text r) };

    fn fmt<W: fmt::Write>(&self, f: &mut fmt::Formatter<W>) -> fmt::Result {
        match self {
            Row::Int(n, value) => write!(f, "i{n} = {value}"),
            Row::Text(n, value) => {
                let value = value.get();
                write!(f, "s{n} = {value}")
            }
            Row::Block(row) => row.fmt(f),
            Row::Control(row) => row.fmt(f),
            Row::Record(row) => row.fmt(f),
        }
    }
}

impl fmt::Display for CodeLine {
    ghost output = { λ l. Some (spell l) };

    fn fmt<W: fmt::Write>(&self, f: &mut fmt::Formatter<W>) -> fmt::Result {
        match self {
            CodeLine::Row(row) => write!(f, "{row};"),
            CodeLine::If(test) => write!(f, "if ({test}) {{"),
            CodeLine::Else => f.write_str("} else {"),
            CodeLine::ForUp(k, bound) => {
                write!(f, "for (k{k} = 0; k{k} < {bound}; k{k} = k{k} + 1) {{")
            }
            CodeLine::ForDown(k, bound) => {
                write!(f, "for (k{k} = {bound} - 1; k{k} >= 0; k{k} = k{k} - 1) {{")
            }
            CodeLine::Forever => f.write_str("while (1) {"),
            CodeLine::Close => f.write_str("}"),
        }
    }
}
