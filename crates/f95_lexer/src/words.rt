//! Words that stand in a text more than once, kept once.
ghost use Rattle.std.specs.Prelude.{◌≡◌, IfOk};

use a95_base::{Bytes, SharedBytes};
use std::alloc::{AllocError, Global};

/// How many words are kept.
const PLACES: usize = 1024;

/// The words that were met last, each at the place that its bytes give it.
#[derive(Drop)]
pub struct Words {
    kept: Vec<Option<SharedBytes>>,
}

impl Words {
    /// No word so far.
    pub fn new(alloc: Global) -> Result<Words, AllocError> {
        let mut kept = Vec::new(alloc);
        for _ in 0..PLACES {
            kept.push(None)?;
        }
        Ok(Words { kept })
    }

    /// The word as one more owner of what is kept, which it is from now on if it wasn't.
    pub fn shared(&mut self, alloc: Global, word: Bytes) -> Result<SharedBytes, AllocError>
        ensures { IfOk result (λ shared. shared ≡ word) }
    {
        let place = place_of(word.as_slice());
        if let Some(Some(kept)) = self.kept.get(place) {
            if kept.as_slice() == word.as_slice() {
                return kept.share();
            }
        }
        let shared = SharedBytes::new(alloc, word)?;
        if let Some(kept) = self.kept.get_mut(place) {
            *kept = Some(shared.share()?);
        }
        Ok(shared)
    }
}

/// The place of a word. Words of one letter have places of their own.
fn place_of(word: &[u8]) -> usize {
    let mut sum = 0u32;
    for byte in word {
        sum = sum.wrapping_mul(31).wrapping_add(u32::from(*byte));
    }
    sum as usize % PLACES
}
