//! The charge types by name, for callers that choose one while they run.
ghost use Rattle.std.specs.Prelude.{Some};
ghost use Rattle.charges.specs.Named.{reads_by, meaning_by, name_of};
ghost use Rattle.sharing.specs.Named.{ReadsName};
ghost use Rattle.charges.specs.OfNamed.{named_laws};

use crate::charge::{Asked, ChargeType};
use crate::fault::ChargeFault;
use crate::standby::Standby;
use std::fmt;
use std::str::FromStr;

/// A charge type that is chosen while the program runs. It is an enum, since a function may not hand out a `dyn ChargeType`.
#[derive(Clone, Copy, PartialEq, Eq, Debug)]
pub enum NamedCharge {
    Standby,
}

impl ChargeType for NamedCharge {
    ghost reads = { reads_by };

    ghost meaning = { meaning_by };

    ghost lawful = { named_laws };

    fn reads(&self, kind: u32) -> bool {
        match self {
            NamedCharge::Standby => Standby.reads(kind),
        }
    }

    fn charge(&self, words: &[u32], asked: Asked, hours: &mut [i64]) -> Result<usize, ChargeFault> {
        match self {
            NamedCharge::Standby => Standby.charge(words, asked, hours),
        }
    }
}

impl fmt::Display for NamedCharge {
    ghost output = { λ charge. Some (name_of charge) };

    fn fmt<W: fmt::Write>(&self, f: &mut fmt::Formatter<W>) -> fmt::Result {
        match self {
            NamedCharge::Standby => f.write_str("standby"),
        }
    }
}

/// The text is no charge type's name.
#[derive(Clone, Copy, PartialEq, Eq, Debug)]
pub struct UnknownCharge;

impl FromStr for NamedCharge {
    type Err = UnknownCharge;

    ghost from_str_gives = { ReadsName name_of };

    fn from_str(text: &str) -> Result<NamedCharge, UnknownCharge> {
        match text {
            "standby" => Ok(NamedCharge::Standby),
            _ => Err(UnknownCharge),
        }
    }
}
