//! Why a day is not settled.
ghost use Rattle.std.specs.Prelude.{◌≡◌, ◌+◌, ◌^◌, ◌<◌, Some};
ghost use Rattle.charges.specs.Faults.{place_in_block};
ghost use Rattle.settlement.specs.Faults.{number_in_file, place_in_file, layer_in_file, reason_in_file, in_file};
ghost use Rattle.settlement.specs.Faults.{number_of, place_of, layer_of, reason_of};
ghost use Rattle.settlement.specs.declared.fault.SettleFault.TheVariants.{File as FileOf};

use charges::BlockFault;
use sharing::{Fault, Layer, Notice};
use std::fmt;

/// What is wrong with a day file. Places count the file's words from 0, hours the day's.
#[derive(Clone, Copy, PartialEq, Eq, Debug)]
pub enum FileFault {
    /// The file is empty or over 16,384 words.
    Length,
    /// The day head, a load or a unit block has a fault; `place` counts from the file's first word.
    Block { place: usize, fault: BlockFault },
    /// The file's day is not the one asked for.
    WrongDay,
    /// The load's party is not above those of the loads before it.
    NotRising { place: usize },
    /// The head of a 33rd unit block.
    TooManyBlocks { place: usize },
    /// There are more loads than the rule's greatest count.
    TooManyLoads,
    /// The units' amounts of the hour add up to more than the limit in size.
    TotalOverLimit { hour: usize },
    /// No load took energy in the hour, and the units' amounts do not add up to 0.
    NoLoad { hour: usize },
}

impl Fault for FileFault {
    ghost number_of = { number_in_file };

    ghost place_of = { place_in_file };

    ghost layer_of = { layer_in_file };

    ghost reason_of = { reason_in_file };

    /// The place of the word or head at fault, or the hour; 0 for the other faults.
    fn notice(&self) -> Notice {
        match *self {
            Self::Length => Layer::File.notice(1, 0, "the file is empty or too long"),
            Self::Block { place, fault } => Notice {
                place,
                ..fault.notice()
            },
            Self::NotRising { place } => Layer::File.notice(5, place, "load parties do not rise"),
            Self::TooManyBlocks { place } => Layer::File.notice(6, place, "too many unit blocks"),
            Self::TotalOverLimit { hour } => Layer::File.notice(
                9,
                hour,
                "an hour's total over the limit",
            ),
            Self::NoLoad { hour } => Layer::File.notice(
                10,
                hour,
                "no load in an hour whose total is not zero",
            ),
            Self::WrongDay => Layer::File.notice(11, 0, "the file is of another day"),
            Self::TooManyLoads => Layer::File.notice(
                12,
                0,
                "more loads than the rule's greatest count",
            ),
        }
    }
}

/// The fault of what begins at `head`, with its place in the file; no `From`, which would not know the head.
pub(crate) fn in_file(head: usize, fault: BlockFault) -> FileFault
    requires { head + place_in_block fault < 2 ^ 64 }
    ensures { result ≡ in_file head fault }
{
    FileFault::Block {
        place: head + fault.place(),
        fault,
    }
}

/// Why a day is not settled.
#[derive(Clone, Copy, PartialEq, Eq, Debug)]
pub enum SettleFault {
    /// The memory for the table is shorter than 25 hours of 64 parties.
    NoRoom,
    /// The file has a fault.
    File(FileFault),
}

impl From<FileFault> for SettleFault {
    ghost from_gives = { λ f r. r ≡ FileOf f };

    fn from(fault: FileFault) -> SettleFault {
        SettleFault::File(fault)
    }
}

impl Fault for SettleFault {
    ghost number_of = { number_of };

    ghost place_of = { place_of };

    ghost layer_of = { layer_of };

    ghost reason_of = { reason_of };

    fn notice(&self) -> Notice {
        match *self {
            Self::File(fault) => fault.notice(),
            Self::NoRoom => Layer::Call.notice(13, 0, "memory for the table too short"),
        }
    }
}

impl fmt::Display for SettleFault {
    ghost output = { λ fault. Some (reason_of fault) };

    fn fmt<W: fmt::Write>(&self, f: &mut fmt::Formatter<W>) -> fmt::Result {
        f.write_str(self.reason())
    }
}
