//! Two slices as one input.
ghost use Rattle.std.specs.Prelude.{◌≡◌, ◌++◌};
ghost use Rattle.ion_transcode.specs.Forms.{form_of};

use crate::to::{Form, form_by_first};
use ion_meter::device::{Broken, Input};
use std::marker::Model;

/// Two slices, one behind the other, as an input that never fails.
#[derive(Drop)]
pub(crate) struct Pieces<'a> {
    first: &'a [u8],
    second: &'a [u8],
}

impl<'a> Model for Pieces<'a> {
    ghost use Rattle.std.specs.Prelude.{ℕ, List, ◌++◌};

    ghost Value = { List ℕ };

    ghost view = { λ d. d.first.now ++ d.second.now };
}

impl<'a> Pieces<'a> {
    /// These slices, the second behind the first.
    pub(crate) fn new(first: &'a [u8], second: &'a [u8]) -> Pieces<'a>
        ensures { result ≡ first.now ++ second.now }
    {
        Pieces { first, second }
    }

    /// The form of a stream of these bytes.
    pub(crate) fn form(&self) -> Form
        ensures { result ≡ form_of self.now }
    {
        match self.first.first() {
            Some(byte) => form_by_first(Some(*byte)),
            None => form_by_first(self.second.first().copied()),
        }
    }
}

impl Input for Pieces<'_> {
    ghost rest = { λ d. d };

    ghost failure_count = { λ _. 0 };

    ghost observable = { λ _. Unit {0} };

    ghost yields = { λ _ _ _. Unit {0} };

    fn read(&mut self, into: &mut [u8]) -> Result<usize, Broken> {
        if self.first.is_empty() {
            self.first = self.second;
            self.second = &[];
        }
        let n = self.first.len().min(into.len());
        into[..n].copy_from_slice(&self.first[..n]);
        self.first = &self.first[n..];
        Ok(n)
    }

    fn failures(&self) -> u64 {
        0
    }
}
