//! Two charge types stand together as one.
ghost use Rattle.std.specs.Prelude.{◌||◌, if◌then◌else◌};
ghost use Rattle.words.specs.Heads.{head_kind};
ghost use Rattle.charges.specs.OfBoth.{both_laws};

use crate::charge::{Asked, ChargeType};
use crate::fault::ChargeFault;
use words::head::first_kind;

/// The first type gets the blocks whose kind it reads, the second the others.
#[derive(Clone, Copy, PartialEq, Eq, Debug)]
pub struct Both<A, B> {
    pub first: A,
    pub second: B,
}

impl<A: ChargeType, B: ChargeType> ChargeType for Both<A, B> {
    ghost reads = { λ s k. A.ChargeType.reads s.first k || B.ChargeType.reads s.second k };

    ghost meaning = { λ s words asked. (if A.ChargeType.reads s.first (head_kind words) then A.ChargeType.meaning s.first words asked else B.ChargeType.meaning s.second words asked) };

    ghost lawful = { λ type.
        both_laws (A.ChargeType.reads type.first) (B.ChargeType.reads type.second)
        (A.ChargeType.meaning type.first) (B.ChargeType.meaning type.second)
        (A.ChargeType.lawful type.first) (B.ChargeType.lawful type.second) };

    fn reads(&self, kind: u32) -> bool {
        self.first.reads(kind) || self.second.reads(kind)
    }

    fn charge(&self, words: &[u32], asked: Asked, hours: &mut [i64]) -> Result<usize, ChargeFault> {
        if first_kind(words).is_some_and(|kind| self.first.reads(kind)) {
            self.first.charge(words, asked, hours)
        } else {
            self.second.charge(words, asked, hours)
        }
    }
}
