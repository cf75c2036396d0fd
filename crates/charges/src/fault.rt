//! Why a charge type refuses a block or a question.
ghost use Rattle.std.specs.Prelude.{◌≡◌, Some};
ghost use Rattle.charges.specs.Faults.{number_in_block, place_in_block, layer_in_block, reason_in_block};
ghost use Rattle.charges.specs.Faults.{number_of, place_of, layer_of, reason_of};
ghost use Rattle.charges.specs.declared.fault.BlockFault.TheVariants.{Word as WordOf};
ghost use Rattle.charges.specs.declared.fault.ChargeFault.TheVariants.{Block as BlockOf};

use sharing::{Fault, Layer, Notice};
use std::fmt;
use words::WordFault;

/// What is wrong with a block.
#[derive(Clone, Copy, PartialEq, Eq, Debug)]
pub enum BlockFault {
    /// One of its words is wrong, or they end too soon; the place counts from the block's head.
    Word(WordFault),
    /// The block contradicts itself.
    Contradiction,
    /// An amount is over the limit in size.
    AmountOverLimit,
}

impl From<WordFault> for BlockFault {
    ghost from_gives = { λ f r. r ≡ WordOf f };

    fn from(fault: WordFault) -> BlockFault {
        BlockFault::Word(fault)
    }
}

impl Fault for BlockFault {
    ghost number_of = { number_in_block };

    ghost place_of = { place_in_block };

    ghost layer_of = { layer_in_block };

    ghost reason_of = { reason_in_block };

    /// Places count from the block's head, which is also the place of the whole block's faults.
    fn notice(&self) -> Notice {
        match *self {
            Self::Word(fault) => fault.notice(),
            Self::Contradiction => Layer::Block.notice(7, 0, "the block contradicts itself"),
            Self::AmountOverLimit => Layer::Block.notice(8, 0, "an amount over the limit"),
        }
    }
}

/// Why a charge type that is asked alone refuses.
#[derive(Clone, Copy, PartialEq, Eq, Debug)]
pub enum ChargeFault {
    /// A day has 23 to 25 hours.
    HoursOutOfRange,
    /// The memory for the hours is shorter than the day.
    NoRoom,
    /// The block has a fault.
    Block(BlockFault),
}

impl From<BlockFault> for ChargeFault {
    ghost from_gives = { λ f r. r ≡ BlockOf f };

    fn from(fault: BlockFault) -> ChargeFault {
        ChargeFault::Block(fault)
    }
}

impl Fault for ChargeFault {
    ghost number_of = { number_of };

    ghost place_of = { place_of };

    ghost layer_of = { layer_of };

    ghost reason_of = { reason_of };

    fn notice(&self) -> Notice {
        match *self {
            Self::Block(fault) => fault.notice(),
            Self::NoRoom => Layer::Call.notice(13, 0, "memory for the hours too short"),
            Self::HoursOutOfRange => Layer::Call.notice(24, 0, "not the hours of a day"),
        }
    }
}

impl fmt::Display for ChargeFault {
    ghost output = { λ fault. Some (reason_of fault) };

    fn fmt<W: fmt::Write>(&self, f: &mut fmt::Formatter<W>) -> fmt::Result {
        f.write_str(self.reason())
    }
}
