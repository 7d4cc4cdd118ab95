//! The types and the values of the language.

use crate::bytes::Bytes;

/// The three types of the language.
#[derive(Clone, Copy, Debug, PartialEq, Eq)]
pub enum Kind {
    Int,
    Log,
    Text,
}

/// One value. Characters are bytes.
#[derive(Debug, Drop)]
pub enum Scalar {
    Int(i32),
    Log(bool),
    Text(Bytes),
}
