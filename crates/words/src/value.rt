//! Values within limits.
ghost use Rattle.std.specs.Prelude.{◌≡◌};
ghost use Rattle.words.specs.Values.{judged, bounded};

use crate::fault::WordFault;
use crate::head::{Sign, Word};

/// The least and the greatest that a value may be.
#[derive(Clone, Copy, PartialEq, Eq, Debug)]
pub struct Limits {
    pub low: i32,
    pub high: i32,
}

/// The value of a word that stands at a place, or what is wrong with it: its kind first, then its range.
#[tactic(auto, unfolding(crate::specs::Values::judged))]
pub(crate) fn value_of(word: Word, place: usize, limits: Limits) -> Result<i32, WordFault>
    ensures { result ≡ judged limits place word.0 }
{
    // A content has 28 bits, so the cast fits; `try_from` would have an error that nothing can meet.
    let size = word.content() as i32;
    match word.sign() {
        Some(Sign::Plus) => within(size, place, limits),
        Some(Sign::Minus) if size > 0 => within(-size, place, limits),
        Some(Sign::Minus) => Err(WordFault::OutOfRange { place }),
        None => Err(WordFault::WrongKind { place }),
    }
}

#[tactic(auto, unfolding(crate::specs::Values::bounded))]
fn within(value: i32, place: usize, limits: Limits) -> Result<i32, WordFault>
    ensures { result ≡ bounded limits place value }
{
    if !(limits.low..=limits.high).contains(&value) {
        return Err(WordFault::OutOfRange { place });
    }
    Ok(value)
}
