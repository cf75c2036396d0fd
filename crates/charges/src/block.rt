//! What came of a block, and how it is put into the hours of the day.
ghost use Rattle.std.specs.Prelude.{◌≡◌, ◌≤◌, length};
ghost use Rattle.charges.specs.Blocks.{delivered, put_by};

use crate::fault::{BlockFault, ChargeFault};

/// The most hours that a day has.
pub const MOST_HOURS: usize = 25;

/// The largest amount of an hour in size, in cents.
pub const GREATEST_AMOUNT: u128 = 1_000_000_000;

/// A block that was read and is paid; the amounts behind the day's last hour are 0.
///
/// Its memory, as that of the counts that it is worked out from, is fixed and on the stack, for the longest day: the engine
/// allocates nothing.
#[derive(Clone, Copy, PartialEq, Eq, Debug)]
pub struct Block {
    pub length: usize,
    pub amounts: [i64; MOST_HOURS],
}

/// Writes the block's amounts to all of `hours`, or zeros if it has a fault, and answers its length.
// That the hours are within a day is no type's: see `judge_call`.
pub(crate) fn deliver(
    block: Result<Block, BlockFault>,
    hours: &mut [i64],
) -> Result<usize, ChargeFault>
    requires { length hours.old ≤ 25 }
    ensures answers { result ≡ delivered block }
    ensures leaves { hours.new ≡ put_by (length hours.old) block }
{
    // A match and no `?`: either end writes the hours.
    match block {
        Ok(block) => {
            let n = hours.len();
            hours.copy_from_slice(&block.amounts[..n]);
            Ok(block.length)
        }
        Err(fault) => {
            hours.fill(0);
            Err(ChargeFault::from(fault))
        }
    }
}
