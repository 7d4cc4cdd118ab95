//! Names.
ghost use Rattle.std.specs.Prelude.{◌≡◌};

use std::marker::Model;

/// A name of a source in lower case. Contracts see its bytes.
#[derive(Drop)]
pub struct Name<'a> {
    text: &'a [u8],
}

impl<'a> Model for Name<'a> {
    ghost use Rattle.std.specs.Prelude.{List, ℕ};
    ghost use Rattle.std.specs.Coded.{coded_list, coded_ℕ};

    ghost Value = { List ℕ };

    ghost coded = { coded_list coded_ℕ };

    ghost view = { λ w. w.text.now };
}

impl<'a> Name<'a> {
    pub fn new(text: &'a [u8]) -> Name<'a>
        ensures { result ≡ text.now }
    {
        Name { text }
    }

    pub fn as_slice(&self) -> &'a [u8]
        ensures { result.now ≡ self.now }
    {
        self.text
    }
}
