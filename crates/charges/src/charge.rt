//! The trait of a charge type, and how a part of the caller's memory is lent to one.
ghost use Rattle.std.specs.Prelude.{◌≡◌, ℕ, ◌-◌, ◌≤◌, Bool, List, ◌++◌, length, take, drop, IfOk, MatchResult};
ghost use Rattle.charges.specs.Outcome.{Outcome, judged, answer, left_in};
ghost use Rattle.charges.specs.declared.charge.Asked.{Asked};
ghost use Rattle.charges.specs.Laws.{DayLong, Laws, Paying, Refused};

use crate::block::MOST_HOURS;
use crate::fault::ChargeFault;

/// What a charge type is asked about a block.
#[derive(Clone, Copy, PartialEq, Eq, Debug)]
pub struct Asked {
    /// The hours of the day.
    pub hours: usize,
    /// Whether the settlement run is trued up.
    pub trued_up: bool,
}

/// What blocks of some kinds pay in each hour of the day.
pub trait ChargeType {
    ghost reads: { Self → ℕ → Bool };

    ghost meaning: { Self → List ℕ → Asked → Outcome };

    /// Whether the type reads blocks whose head has this kind.
    ///
    /// Kinds stay numbers: the trait is open, so any type may bring kinds that no enum here names.
    fn reads(&self, kind: u32) -> bool
        ensures { result ≡ reads self.now kind };

    /// Writes the amounts of the block that begins the words to the front of `hours`, and answers the block's length.
    ///
    /// The three stay apart, since each has an owner of its own: the words are the file's, the question is the run's, and
    /// the hours are the caller's table.
    fn charge(&self, words: &[u32], asked: Asked, hours: &mut [i64]) -> Result<usize, ChargeFault>
        ensures answers { result ≡ answer (judged asked (length hours.old)) (meaning self.now words.now asked) }
        ensures leaves { hours.new ≡ left_in (judged asked (length hours.old)) asked (meaning self.now words.now asked) hours.old };

    ghost lawful: { (type : Self) → Laws (reads type) (meaning type) };
}

/// Whether a type may be asked at all: the day has 23 to 25 hours, and there is room for them.
// A type for a day that was judged, with `means` in a ghost field, is no plainer: what reads a block, what pays its counts and
// what delivers it each need another length to be within a day.
#[tactic(auto, unfolding(crate::specs::Outcome::judged))]
pub(crate) fn judge_call(asked: Asked, room: usize) -> Result<(), ChargeFault>
    ensures is { result ≡ judged asked room }
    ensures means { IfOk result (λ _. DayLong asked × (asked.hours ≤ room)) }
{
    if !(23..=MOST_HOURS).contains(&asked.hours) {
        return Err(ChargeFault::HoursOutOfRange);
    }
    if room < asked.hours {
        return Err(ChargeFault::NoRoom);
    }
    Ok(())
}

/// Lends a charge type the part of the caller's hourly memory that begins at a place.
///
/// A part that begins past the end of the memory is refused, by 13, and so is no slice of the caller's making.
///
/// This is `ChargeType::charge` with what the laws give: a block that is paid keeps its limits, and a refusal is for a
/// fault that the question has.
pub fn charge_part<C: ChargeType>(
    charge_type: &C,
    words: &[u32],
    asked: Asked,
    memory: &mut [i64],
    at: usize,
) -> Result<usize, ChargeFault>
    ensures answers { result ≡ answer (judged asked (length memory.old - at)) (C.ChargeType.meaning charge_type.now words.now asked) }
    ensures leaves { memory.new ≡ take at memory.old ++ left_in (judged asked (length memory.old - at)) asked (C.ChargeType.meaning charge_type.now words.now asked) (drop at memory.old) }
    ensures lawful { MatchResult result (λ n. Paying words.now asked n (take asked.hours (drop at memory.new))) (λ f. Refused words.now asked (length memory.old - at) f) }
{
    let start = at.min(memory.len());
    charge_type.charge(words, asked, &mut memory[start..])
}
