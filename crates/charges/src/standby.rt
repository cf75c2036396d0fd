//! Standby, kind 3: what a must-run unit is paid for standing by (RMRSBAMT).
pub mod terms;

ghost use Rattle.std.specs.Prelude.{◌≡◌, ◌≤◌, length, take, is_ok, Decides, MatchResult, ◌==◌};
ghost use Rattle.words.specs.Each.{each};
ghost use Rattle.charges.specs.Outcome.{judged, answer, left_in};
ghost use Rattle.charges.specs.Standby.{amount_of};
ghost use Rattle.charges.specs.StandbyBlock.{standby, terms_of, count_at};
ghost use Rattle.charges.specs.StandbyPromise.{StandbyLawful, StandbyPaid, StandbyRefused};
ghost use Rattle.charges.specs.Blocks.{block_of, filled_up};
ghost use Rattle.charges.specs.OfStandbyBlock.{standby_laws};

use crate::block::{Block, MOST_HOURS, deliver};
use crate::charge::{Asked, ChargeType, judge_call};
use crate::fault::{BlockFault, ChargeFault};
use crate::standby::terms::{Availability, Basis, Capacity, StandbyHour, StandbyTerms};
use words::head::{first_kind, judge_head};
use words::{Limits, Reader};

#[derive(Clone, Copy, PartialEq, Eq, Debug)]
pub struct Standby;

/// The kind of a standby block's head.
const KIND: u32 = 3;

/// The limits of the values behind the head.
// A table of its own, in the order in which `StandbyTerms::from` names the values: one reader serves the tables of all types.
const TERMS: [Limits; 11] = [
    // Basis: 0 estimated, 1 filed.
    Limits { low: 0, high: 1 },
    // Cost, dollars and cents.
    Limits {
        low: 0,
        high: 100_000_000,
    },
    Limits { low: 0, high: 99 },
    // MH, hours under agreement.
    Limits { low: 1, high: 745 },
    // IF, incentive, ten-thousandths.
    Limits {
        low: 0,
        high: 10_000,
    },
    // CCAP, TCAP and TCAPA, kW.
    Limits {
        low: 1,
        high: 4_000_000,
    },
    Limits {
        low: 0,
        high: 4_000_000,
    },
    Limits {
        low: 0,
        high: 4_000_000,
    },
    // TA, target availability, ten-thousandths.
    Limits {
        low: 0,
        high: 10_000,
    },
    // E, hours of the term gone by at hour 0.
    Limits {
        low: 0,
        high: 200_000,
    },
    // HCP, hours of the term.
    Limits {
        low: 1,
        high: 200_000,
    },
];

/// The limits of an hour's count of available hours.
const COUNT: [Limits; 1] = [Limits {
    low: 0,
    high: 4_380,
}];

impl ChargeType for Standby {
    ghost reads = { λ _ k. (k == 3) };

    ghost meaning = { λ _. standby };

    ghost lawful = { λ type. standby_laws };

    fn reads(&self, kind: u32) -> bool {
        kind == KIND
    }

    fn charge(&self, words: &[u32], asked: Asked, hours: &mut [i64]) -> Result<usize, ChargeFault> {
        charge_standby(words, asked, hours)
    }
}

/// The type's `charge`, with what it promises of a standby block.
pub fn charge_standby(words: &[u32], asked: Asked, hours: &mut [i64]) -> Result<usize, ChargeFault>
    ensures answers { result ≡ answer (judged asked (length hours.old)) (standby words.now asked) }
    ensures leaves { hours.new ≡ left_in (judged asked (length hours.old)) asked (standby words.now asked) hours.old }
    ensures taken { Decides (is_ok result) (StandbyLawful words.now asked (length hours.old)) }
    ensures means { MatchResult result (λ n. StandbyPaid words.now asked n (take asked.hours hours.new)) (λ f. StandbyRefused words.now asked (length hours.old) f) }
{
    judge_call(asked, hours.len())?;
    deliver(read_block(words, asked), &mut hours[..asked.hours])
}

/// Reads the block, and then works out the amounts of its hours.
// That the hours are within a day is no type's, here and in `pay_hours`: see `judge_call`.
fn read_block(words: &[u32], asked: Asked) -> Result<Block, BlockFault>
    requires { asked.hours ≤ 25 }
    ensures { result ≡ block_of (standby words.now asked) }
{
    judge_head(words, first_kind(words) == Some(KIND))?;
    let mut reader = Reader::new(words, 1);
    let terms = StandbyTerms::from(reader.row(TERMS)?);
    let counts: [[i32; 1]; MOST_HOURS] = reader.rows(COUNT, asked.hours)?;
    let amounts = pay_hours(&terms, asked.trued_up, &counts[..asked.hours])?;
    Ok(Block {
        length: reader.at,
        amounts,
    })
}

/// The amounts of the day's hours, one for each count, with zeros behind them, or the first that is over the limit.
fn pay_hours(
    terms: &StandbyTerms,
    trued_up: bool,
    counts: &[[i32; 1]],
) -> Result<[i64; MOST_HOURS], BlockFault>
    requires { length counts.now ≤ 25 }
    ensures { result ≡ filled_up (each (λ hour. amount_of terms.now trued_up hour (count_at counts.now hour)) (length counts.now)) }
{
    let mut amounts = [0; MOST_HOURS];
    for (hour, [count]) in counts.iter().enumerate() {
        let available = count.unsigned_abs();
        // The index serves the write too: a zip over `amounts.iter_mut()` loses what is written.
        amounts[hour] = terms.amount(trued_up, StandbyHour { hour, available })?;
    }
    Ok(amounts)
}

impl From<[i32; 11]> for StandbyTerms {
    ghost from_gives = { λ values terms. terms ≡ terms_of values };

    /// The limits of the values keep them from being negative.
    fn from(values: [i32; 11]) -> StandbyTerms {
        let [
            basis,
            dollars,
            cents,
            agreement_hours,
            incentive,
            contract_kw,
            tested_kw,
            adjusting_kw,
            target,
            elapsed_hours,
            term_hours,
        ] = values.map(i32::unsigned_abs);
        StandbyTerms {
            basis: Basis::from(basis),
            dollars,
            cents,
            agreement_hours,
            incentive,
            capacity: Capacity {
                contract_kw,
                tested_kw,
                adjusting_kw,
            },
            availability: Availability {
                target,
                elapsed_hours,
                term_hours,
            },
        }
    }
}
