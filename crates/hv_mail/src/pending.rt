// The pending vectors of a processor.
ghost use Rattle.std.specs.Prelude.{◌≡◌};
ghost use Rattle.std.specs.FinSet as set;
ghost use Rattle.hv_defs.specs.Vectors.{highest, without};
ghost use Rattle.hv_mail.specs.Words.{numbers_of};

use crate::words::{clear_bit, highest_bit, set_bit};
use std::marker::Model;

/// The pending interrupt vectors of a virtual processor, a set of numbers from 0 to 255.
#[derive(Drop)]
pub struct Pending {
    words: [u64; 4],
}

impl Model for Pending {
    ghost use Rattle.hv_defs.specs.Vectors.{VectorSet, vectors_code};
    ghost use Rattle.hv_mail.specs.Words.{numbers_of};

    ghost Value = { VectorSet };

    ghost coded = { vectors_code };

    ghost view = { λ p. numbers_of p.words };
}

impl Pending {
    /// Creates the empty set of vectors.
    pub fn new() -> Pending
        ensures { result ≡ set.empty }
    {
        Pending { words: [0; 4] }
    }

    /// The vectors as bits: vector v is in the set where bit v % 64 of word v / 64 is 1.
    pub fn words(&self) -> [u64; 4]
        ensures { numbers_of result ≡ self.now }
    {
        self.words
    }

    /// Adds a vector, which may be there already.
    pub fn raise(&mut self, vector: u8)
        ensures { self.new ≡ set.insert self.old vector }
    {
        set_bit(&mut self.words, usize::from(vector));
    }

    /// Removes the highest vector, and returns it.
    pub fn take_highest(&mut self) -> Option<u8>
        ensures vector { result ≡ highest self.old }
        ensures vectors { self.new ≡ without self.old (highest self.old) }
    {
        let Some(at) = highest_bit(&self.words) else {
            return None;
        };
        clear_bit(&mut self.words, at);
        Some(at as u8)
    }
}
