//! A reader of values and rows of values, word by word from a place on.
ghost use Rattle.std.specs.Prelude.{◌≡◌, ◌+◌, ◌*◌, min, List, ℤ, is_ok, Decides, MatchResult};
ghost use Rattle.words.specs.Rows.{row, rows, padded, Row, FirstWrong, StandsAtFault, StandsAtFaultOfRows};
ghost use Rattle.words.specs.Values.{value_at, InOrder, Wrong};

use crate::fault::WordFault;
use crate::head::Word;
use crate::value::{Limits, value_of};

/// Words, and the place of the next one that is read, counted from 0; after a fault that of the word that is wrong or missing.
#[derive(Clone, Copy, PartialEq, Eq, Debug)]
pub struct Reader<'a> {
    pub words: &'a [u32],
    pub at: usize,
}

impl<'a> Reader<'a> {
    pub fn new(words: &'a [u32], at: usize) -> Reader<'a>
        ensures of { result.words.now ≡ words.now }
        ensures from { result.at ≡ at }
    {
        Reader { words, at }
    }

    /// The value of the next word, or what is wrong there.
    #[tactic(auto, unfolding(crate::specs::Values::value_at))]
    pub fn value(&mut self, limits: Limits) -> Result<i32, WordFault>
        ensures same_words { self.new.words ≡ self.old.words }
        ensures is { result ≡ value_at limits self.old.at self.old.words.now }
        ensures means { MatchResult result (λ z. InOrder limits self.old.at self.old.words.now z) (λ f. Wrong limits self.old.at self.old.words.now f) }
        ensures stands { MatchResult result (λ _. self.new.at ≡ self.old.at + 1) (λ _. self.new.at ≡ self.old.at) }
    {
        let Some(word) = self.words.get(self.at) else {
            return Err(WordFault::Ended {
                place: self.words.len(),
            });
        };
        let value = value_of(Word(*word), self.at, limits)?;
        self.at += 1;
        Ok(value)
    }

    /// The values of the next words, one for each of the limits, or the first fault.
    // A helper for this loop and that of `rows` takes a closure that moves the reader, and says less than the three lines do;
    // `array::try_map` does not say which fault comes first.
    pub fn row<const N: usize>(&mut self, limits: [Limits; N]) -> Result<[i32; N], WordFault>
        ensures same_words { self.new.words ≡ self.old.words }
        ensures is { result ≡ row limits.entry self.old.at self.old.words.now }
        ensures taken { Decides (is_ok result) ((values : List ℤ) × Row limits.entry self.old.at self.old.words.now values) }
        ensures means { MatchResult result (λ values. Row limits.entry self.old.at self.old.words.now values) (λ f. FirstWrong limits.entry self.old.at self.old.words.now f) }
        ensures stands { MatchResult result (λ _. self.new.at ≡ self.old.at + N) (λ f. StandsAtFault limits.entry self.old.at self.old.words.now f self.new.at) }
    {
        let mut values = [0; N];
        for (i, limit) in limits.iter().enumerate() {
            // The index serves the write alone: a zip over `values.iter_mut()` loses what is written.
            values[i] = self.value(*limit)?;
        }
        Ok(values)
    }

    /// Up to `M` rows, one behind the other, all over the same limits; the places behind `count` rows hold zeros.
    pub fn rows<const N: usize, const M: usize>(
        &mut self,
        limits: [Limits; N],
        count: usize,
    ) -> Result<[[i32; N]; M], WordFault>
        ensures same_words { self.new.words ≡ self.old.words }
        ensures is { result ≡ padded N M (rows limits.entry (min count M) self.old.at self.old.words.now) }
        ensures stands { MatchResult result (λ _. self.new.at ≡ self.old.at + N * min count M) (λ f. StandsAtFaultOfRows limits.entry (min count M) self.old.at self.old.words.now f self.new.at) }
    {
        let mut rows = [[0; N]; M];
        for row in rows[..count.min(M)].iter_mut() {
            *row = self.row(limits)?;
        }
        Ok(rows)
    }
}
