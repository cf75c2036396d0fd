//! The terms of a must-run unit's standby payment, and the payment of an hour.
ghost use Rattle.std.specs.Prelude.{◌≡◌, ◌*◌, ◌^◌, ◌<◌, ◌≤◌};
ghost use Rattle.charges.specs.Standby.{cost, capacity_factor, availability_factor, incentive_factor, pays, amount_of};
ghost use Rattle.charges.specs.StandbyBlock.{basis_of};
ghost use Rattle.charges.specs.StandbyLaws.{LawfulPay};

use crate::block::GREATEST_AMOUNT;
use crate::fault::BlockFault;
use crate::rounding::nearest;

/// A factor of one, in millionths.
const FULL: u64 = 1_000_000;

/// Half a year in hours.
const WINDOW_HOURS: u64 = 4_380;

/// The window's hours at ten thousand ten-thousandths.
const WHOLE_WINDOW: u64 = 43_800_000;

/// Whether the unit's costs are estimated, or were filed with the market.
#[derive(Clone, Copy, PartialEq, Eq, Debug)]
pub enum Basis {
    Estimated,
    Filed,
}

impl From<u32> for Basis {
    ghost from_gives = { λ number basis. basis ≡ basis_of number };

    /// A block's limits leave only 0 and 1.
    fn from(number: u32) -> Basis {
        match number {
            0 => Basis::Estimated,
            _ => Basis::Filed,
        }
    }
}

/// An hour of the day, and the hours of the window before it in which the unit was available.
#[derive(Clone, Copy, PartialEq, Eq, Debug)]
pub struct StandbyHour {
    pub hour: usize,
    pub available: u32,
}

/// A unit's capacity in kW: that of the contract (CCAP), as tested (TCAP), and the adjustment of the test (TCAPA).
#[derive(Clone, Copy, PartialEq, Eq, Debug)]
pub struct Capacity {
    pub contract_kw: u32,
    pub tested_kw: u32,
    pub adjusting_kw: u32,
}

impl Capacity {
    /// The capacity factor C (RMRCRF), in millionths.
    pub fn factor(&self) -> u64
        ensures is { result ≡ capacity_factor self.now }
        ensures most { result ≤ 1000000 }
    {
        let contract = u64::from(self.contract_kw);
        let tested = u64::from(self.tested_kw);
        if contract <= tested + u64::from(self.adjusting_kw) {
            return FULL;
        }
        FULL * (2 * tested).saturating_sub(contract) / contract
    }
}

/// A unit's availability: the target in ten-thousandths (TA), the hours of the term gone by at hour 0 of the day (E), and
/// the hours of the term (HCP).
#[derive(Clone, Copy, PartialEq, Eq, Debug)]
pub struct Availability {
    pub target: u32,
    pub elapsed_hours: u32,
    pub term_hours: u32,
}

impl Availability {
    /// The availability factor A (RMRARF) of an hour, in millionths.
    pub fn factor(&self, at: StandbyHour) -> u64
        ensures is { result ≡ availability_factor self.now at.hour at.available }
        ensures most { result ≤ 1000000 }
    {
        // There is no `From<usize>` for `u128`.
        let elapsed = u128::from(self.elapsed_hours) + at.hour as u128;
        if 6 * elapsed < u128::from(self.term_hours) {
            return FULL;
        }
        let wanted = WINDOW_HOURS * u64::from(self.target);
        let reached = 10_000 * u64::from(at.available);
        if wanted <= reached {
            return FULL;
        }
        FULL * WHOLE_WINDOW.saturating_sub(2 * (wanted - reached)) / WHOLE_WINDOW
    }
}

#[derive(Clone, Copy, PartialEq, Eq, Debug)]
pub struct StandbyTerms {
    pub basis: Basis,
    /// The cost of the month, in dollars and cents.
    pub dollars: u32,
    pub cents: u32,
    /// The hours under agreement (MH).
    pub agreement_hours: u32,
    /// The incentive (IF), in ten-thousandths.
    pub incentive: u32,
    pub capacity: Capacity,
    pub availability: Availability,
}

impl StandbyTerms {
    pub fn cost_cents(&self) -> u64
        ensures is { result ≡ cost self.now }
        ensures bound { result < 2 ^ 39 }
    {
        100 * u64::from(self.dollars) + u64::from(self.cents)
    }

    /// The incentive factor F of an hour, in millionths.
    pub fn incentive_factor(&self, at: StandbyHour) -> u128
        ensures is { result ≡ incentive_factor self.now at.hour at.available }
        ensures bound { result < 2 ^ 39 }
    {
        let capacity = u128::from(self.capacity.factor());
        let availability = u128::from(self.availability.factor(at));
        u128::from(self.incentive) * capacity * availability / 10_000_000_000
    }

    /// The hours under agreement, in millionths.
    fn agreement_parts(&self) -> u64
        ensures { result ≡ self.now.agreement_hours * 1000000 }
    {
        u64::from(self.agreement_hours) * FULL
    }

    /// What the unit is paid for an hour, in cents (RMRSBPR).
    #[tactic(auto, using(crate::proofs::OfStandby::lawful_pay))]
    pub fn pay_cents(&self, trued_up: bool, at: StandbyHour) -> u128
        ensures is { result ≡ pays self.now trued_up at.hour at.available }
        ensures lawful { LawfulPay self.now trued_up at.hour at.available result }
    {
        let cost = u128::from(self.cost_cents());
        match self.basis {
            // Costs that are not filed by the true-up count as zero.
            Basis::Estimated if trued_up => 0,
            Basis::Estimated => cost,
            Basis::Filed => {
                let paid = u128::from(FULL) + self.incentive_factor(at);
                nearest(cost * paid, self.agreement_parts())
            }
        }
    }

    /// The amount of an hour (RMRSBAMT): a payment, and so negative, if it is within the limit.
    pub fn amount(&self, trued_up: bool, at: StandbyHour) -> Result<i64, BlockFault>
        ensures { result ≡ amount_of self.now trued_up at.hour at.available }
    {
        let pay = self.pay_cents(trued_up, at);
        if GREATEST_AMOUNT < pay {
            return Err(BlockFault::AmountOverLimit);
        }
        // Within the limit, so the cast fits; `try_from` would have an error that nothing can meet.
        Ok(-(pay as i64))
    }
}
