//! What can be wrong with a word.
ghost use Rattle.std.specs.Prelude.{Some};
ghost use Rattle.words.specs.Faults.{number_of, place_of, layer_of, reason_of};

use sharing::{Fault, Layer, Notice};
use std::fmt;

/// The first fault of a list of words; `place` counts words from 0.
#[derive(Clone, Copy, PartialEq, Eq, Debug)]
pub enum WordFault {
    /// The word's kind cannot stand there.
    WrongKind { place: usize },
    /// A word is wanted, and there is none; `place` is the number of words.
    Ended { place: usize },
    /// The word's value is out of range or minus 0, or its head has stray bits.
    OutOfRange { place: usize },
}

impl Fault for WordFault {
    ghost number_of = { number_of };

    ghost place_of = { place_of };

    ghost layer_of = { layer_of };

    ghost reason_of = { reason_of };

    fn notice(&self) -> Notice {
        match *self {
            Self::WrongKind { place } => Layer::Word.notice(
                2,
                place,
                "a kind that cannot stand there",
            ),
            Self::Ended { place } => Layer::Word.notice(3, place, "the words end inside a block"),
            Self::OutOfRange { place } => Layer::Word.notice(
                4,
                place,
                "a value out of range, stray head bits or minus zero",
            ),
        }
    }
}

impl fmt::Display for WordFault {
    ghost output = { λ fault. Some (reason_of fault) };

    fn fmt<W: fmt::Write>(&self, f: &mut fmt::Formatter<W>) -> fmt::Result {
        f.write_str(self.reason())
    }
}
