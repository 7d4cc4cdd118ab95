//! The text of a record, gathered value by value.
ghost use Rattle.std.specs.Prelude.{◌≡◌, [], ◌∷◌, ◌++◌, IfOk, OnOk, OnErr};
ghost use Rattle.std.specs.Io.{StartsWith};
ghost use Rattle.a95_base.specs.Record.{is_text, record_text};
ghost use Rattle.record_io.specs.Values.{added_text};

use a95_base::{Memory, Scalar};
use itoa::Buffer;
use std::alloc::{AllocError, Global};
use std::marker::Model;

/// The values of a record that is being gathered, and its text. Contracts see the list of the values.
#[derive(Drop)]
pub struct Record {
    alloc: Global,
    values: Vec<Scalar>,
    text: Vec<u8>,
    after_text: bool,
}

impl Model for Record {
    ghost use Rattle.std.specs.Prelude.{◌≡◌, List, false};
    ghost use Rattle.a95_base.specs.declared.scalar.Scalar.{Scalar};
    ghost use Rattle.a95_base.specs.Record.{record_text};
    ghost use Rattle.record_io.specs.Values.{ends_in_text};

    ghost Value = { List Scalar };

    ghost view = { λ r. r.values.items };

    ghost invariant = { λ r. (r.text.items ≡ record_text r.values.items) × (r.after_text ≡ ends_in_text false r.values.items) };
}

impl Record {
    /// No values. Takes no memory.
    pub fn new(alloc: Global) -> Record
        ensures { result ≡ [] }
    {
        Record {
            alloc,
            values: Vec::new(alloc),
            text: Vec::new(alloc),
            after_text: false,
        }
    }

    /// Adds a value at the end.
    pub fn put_value(&mut self, value: &Scalar) -> Result<(), Memory>
        ensures ok { OnOk result (self.new ≡ self.old ++ value.now ∷ []) }
        ensures err { OnErr result (self.new ≡ self.old) }
    {
        put(
            self.alloc,
            &mut self.values,
            &mut self.text,
            self.after_text,
            value,
        )?;
        self.after_text = is_text_value(value);
        Ok(())
    }

    /// The record's text, without the line feed.
    pub fn bytes(&self) -> &[u8]
        ensures { result.now ≡ record_text self.now }
    {
        self.text.as_slice()
    }

    /// Drops all values.
    pub fn clear(&mut self)
        ensures { self.new ≡ [] }
    {
        self.values.clear();
        self.text.clear();
        self.after_text = false;
    }
}

// Adds a value to the list and to the text.
fn put(
    alloc: Global,
    values: &mut Vec<Scalar>,
    text: &mut Vec<u8>,
    after_text: bool,
    value: &Scalar,
) -> Result<(), Memory>
    ensures values { OnOk result (values.new.items ≡ values.old.items ++ value.now ∷ []) }
    ensures text { OnOk result (text.new.items ≡ text.old.items ++ added_text after_text value.now) }
    ensures same_values { OnErr result (values.new.items ≡ values.old.items) }
    ensures same_text { OnErr result (text.new.items ≡ text.old.items) }
{
    let length = text.len();
    let Ok(copied) = copy_of(alloc, value) else {
        return Err(Memory);
    };
    if append_value(text, after_text, value).is_err() || values.push(copied).is_err() {
        text.truncate(length);
        return Err(Memory);
    }
    Ok(())
}

fn is_text_value(value: &Scalar) -> bool
    ensures { result ≡ is_text value.now }
{
    matches!(value, Scalar::Text(_))
}

fn copy_of(alloc: Global, value: &Scalar) -> Result<Scalar, AllocError>
    ensures { IfOk result (λ copied. copied ≡ value.now) }
{
    match value {
        Scalar::Int(number) => Ok(Scalar::Int(*number)),
        Scalar::Log(truth) => Ok(Scalar::Log(*truth)),
        Scalar::Text(bytes) => Ok(Scalar::Text(bytes.copy(alloc)?)),
    }
}

// Appends a value's text, with a blank before it unless it is a text behind a text.
fn append_value(text: &mut Vec<u8>, after_text: bool, value: &Scalar) -> Result<(), AllocError>
    ensures ok { OnOk result (text.new.items ≡ text.old.items ++ added_text after_text value.now) }
    ensures front { StartsWith text.new.items text.old.items }
{
    match value {
        Scalar::Text(bytes) => {
            if !after_text {
                text.push(b' ')?;
            }
            text.extend_from_slice(bytes.as_slice())
        }
        Scalar::Log(true) => text.extend_from_slice(b" T"),
        Scalar::Log(false) => text.extend_from_slice(b" F"),
        Scalar::Int(number) => {
            text.push(b' ')?;
            text.extend_from_slice(Buffer::new().format(*number).as_bytes())
        }
    }
}
