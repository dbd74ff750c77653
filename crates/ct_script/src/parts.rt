//! Bytes cut into parts: a text into lines, a line into words.

ghost use Rattle.std.specs.Prelude.{◌≡◌, ◌∷◌, ◌==◌, [], length, MatchOption};
ghost use Rattle.std.specs.List.{slice_split};

use crate::cuts::cut;
use std::marker::Model;

/// The parts that are still to be read, as contracts see it: a list.
#[derive(Debug, Drop)]
pub struct Parts<'a> {
    at: u8,
    rest: Option<&'a [u8]>,
}

impl<'a> Model for Parts<'a> {
    ghost use Rattle.std.specs.Prelude.{List, ℕ};
    ghost use Rattle.ct_script.specs.Cuts.{parts_of_rest};

    ghost Value = { List (List ℕ) };

    ghost view = { λ p. parts_of_rest p.at p.rest };
}

impl<'a> Parts<'a> {
    /// The parts round each byte `at`; there is one more than there are such bytes.
    pub fn new(bytes: &'a [u8], at: u8) -> Parts<'a>
        ensures { result ≡ slice_split (λ b. b == at) bytes.now }
    {
        Parts {
            at,
            rest: Some(bytes),
        }
    }

    /// Takes the next part, if there is one.
    pub fn next(&mut self) -> Option<&'a [u8]>
        ensures { MatchOption result ((self.old ≡ []) × (self.new ≡ [])) (λ part. self.old ≡ part.now ∷ self.new) }
    {
        let (part, others) = cut(self.rest?, self.at);
        self.rest = others;
        Some(part)
    }

    pub fn is_empty(&self) -> bool
        ensures { result ≡ (length self.now == 0) }
    {
        matches!(self.rest, None)
    }
}
