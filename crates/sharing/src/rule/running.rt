//! The running rule: the first k sharers together get the floor of their part.
ghost use Rattle.sharing.specs.Prefixes.{running, running_share, RunningSums};
ghost use Rattle.sharing.specs.OfRunning.{ReadyAt, running_each, running_amounts, running_sums, running_day};

use crate::rule::cents::Division;
use crate::rule::dealing::{Dealer, DealingRule};
use crate::weight::Weighted;

/// Each sharer gets what the floor rises by when the sharer joins those before.
#[derive(Clone, Copy, PartialEq, Eq, Debug)]
pub struct Running;

impl DealingRule for Running {
    type DealtBy = RunningDealer;
}

/// How much weight the sharers so far have, and what they were given together.
#[derive(Clone, Copy)]
pub struct RunningDealer {
    pub division: Division,
    pub weight_so_far: u128,
    pub given: u64,
}

impl Dealer for RunningDealer {
    ghost share_at = { running_share };

    ghost shares = { running };

    ghost greatest = { 64 };

    ghost Sentence = { RunningSums };

    ghost Ready = { λ d amount ws k. ReadyAt d.division.amount d.division.all d.weight_so_far d.given amount ws k };

    ghost takes_a_day = { running_day };

    ghost each_place = { running_each };

    ghost lawful = { running_amounts };

    ghost says = { running_sums };

    fn greatest() -> usize {
        64
    }

    fn begin<T: Weighted>(division: Division, _items: &[T]) -> RunningDealer {
        RunningDealer {
            division,
            weight_so_far: 0,
            given: 0,
        }
    }

    fn deal(&mut self, weight: u32) -> u64 {
        let upto = self.weight_so_far + u128::from(weight);
        let due = self.division.quota(upto);
        let share = due - self.given;
        self.weight_so_far = upto;
        self.given = due;
        share
    }
}
