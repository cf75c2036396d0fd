//! The in-turn rule: floors, and the cents left over one each to the first sharers with a weight.
ghost use Rattle.std.specs.Prelude.{◌≡◌, ◌≤◌, ◌&&◌, map, if◌then◌else◌, sum_by, sum, nat_lt};
ghost use Rattle.sharing.specs.Turns.{floor_share, has_weight, in_turn, in_turn_share, InTurnShares};
ghost use Rattle.sharing.specs.OfInTurn.{ReadyAt, in_turn_each, in_turn_amounts, in_turn_shares, in_turn_day};

use crate::rule::cents::Division;
use crate::rule::dealing::{Dealer, DealingRule};
use crate::weight::Weighted;

/// Each sharer gets the floor of its part; the first sharers get one cent more while cents are left over.
#[derive(Clone, Copy, PartialEq, Eq, Debug)]
pub struct InTurn;

impl DealingRule for InTurn {
    type DealtBy = InTurnDealer;
}

/// How many of the cents that the floors leave over are still left.
#[derive(Clone, Copy)]
pub struct InTurnDealer {
    pub division: Division,
    pub left: u64,
}

impl Dealer for InTurnDealer {
    ghost share_at = { in_turn_share };

    ghost shares = { in_turn };

    ghost greatest = { 32 };

    ghost Sentence = { InTurnShares };

    ghost Ready = { λ d amount ws k. ReadyAt d.division.amount d.division.all d.left amount ws k };

    ghost takes_a_day = { in_turn_day };

    ghost each_place = { in_turn_each };

    ghost lawful = { in_turn_amounts };

    ghost says = { in_turn_shares };

    fn greatest() -> usize {
        32
    }

    fn begin<T: Weighted>(division: Division, items: &[T]) -> InTurnDealer {
        let left = division.amount - floors(&division, items);
        InTurnDealer { division, left }
    }

    fn deal(&mut self, weight: u32) -> u64 {
        let extra = extra_cent(self.left, weight);
        self.left -= extra;
        self.division.quota(u128::from(weight)) + extra
    }
}

/// The sum of the floors.
fn floors<T: Weighted>(division: &Division, items: &[T]) -> u64
    requires { division.now.all ≡ sum (map T.Weighted.weight items.now) }
    ensures value { result ≡ sum_by (floor_share division.now.amount (map T.Weighted.weight items.now)) (map T.Weighted.weight items.now) }
    ensures bound { result ≤ division.now.amount }
{
    // `map` and `sum` were tried: their closure sees one weight, and not that it is within the sum of all.
    let mut given: u64 = 0;
    for item in items {
        given += division.quota(u128::from(item.weight()));
    }
    given
}

/// One of the cents left over, for a sharer that has a weight.
fn extra_cent(left: u64, weight: u32) -> u64
    ensures { result ≡ (if has_weight weight && nat_lt 0 left then 1 else 0) }
{
    u64::from(weight > 0 && left > 0)
}
