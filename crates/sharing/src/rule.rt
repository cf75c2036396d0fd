//! The trait of a sharing rule, and the questions that a rule accepts.
mod cents;
mod dealing;
pub mod in_turn;
pub mod named;
pub mod running;

ghost use Rattle.std.specs.Prelude.{◌≡◌, ℕ, List, map, length, take, ℤ, MatchResult};
ghost use Rattle.sharing.specs.Consequences.{Fair};
ghost use Rattle.sharing.specs.Laws.{Laws};
ghost use Rattle.sharing.specs.Question.{judged, Refused, answer, left_in};

use crate::fault::ShareFault;
use crate::weight::{Weighted, total_weight};
pub use dealing::share_by;

/// The largest total in size, in cents.
pub const GREATEST_TOTAL: u64 = 1_000_000_000;

/// A rule that divides a total of cents among sharers by their weights.
pub trait SharingRule {
    ghost shares: { Self → ℤ → List ℕ → List ℤ };

    ghost greatest: { Self → ℕ };

    /// The most weights that the rule takes.
    fn greatest(&self) -> usize
        ensures { result ≡ greatest self.now };

    /// Writes the shares of `total` to the front of `out`, one for each of `items`, or refuses and alters nothing.
    ///
    /// The three stay apart, since each has an owner of its own: the total is the hour's, the items are the file's, and the
    /// memory is the caller's.
    fn share<T: Weighted>(&self, total: i64, items: &[T], out: &mut [i64]) -> Result<(), ShareFault>
        ensures answers { result ≡ answer (judged (greatest self.now) (length out.old) total (map T.Weighted.weight items.now)) }
        ensures leaves { out.new ≡ left_in (judged (greatest self.now) (length out.old) total (map T.Weighted.weight items.now)) (shares self.now total (map T.Weighted.weight items.now)) out.old };

    ghost fair: { (rule : Self) → Laws (shares rule) (greatest rule) };
}

/// The sum of the weights of a question that a rule for `greatest` sharers accepts, or its first fault.
#[tactic(auto, unfolding(crate::specs::Question::judged, crate::specs::Weights::weighed))]
pub fn judge<T: Weighted>(
    greatest: usize,
    room: usize,
    total: i64,
    items: &[T],
) -> Result<u128, ShareFault>
    ensures { result ≡ judged greatest room total (map T.Weighted.weight items.now) }
{
    if room < items.len() {
        return Err(ShareFault::NoRoom);
    }
    if greatest < items.len() {
        return Err(ShareFault::TooManyWeights);
    }
    let all = total_weight(items)?;
    let amount = total.unsigned_abs();
    if amount > GREATEST_TOTAL {
        return Err(ShareFault::TotalOverLimit);
    }
    if all == 0 && amount > 0 {
        return Err(ShareFault::NoWeight);
    }
    Ok(all)
}

/// Shares `total` among `items` by any rule.
///
/// This is `SharingRule::share` with what the laws give: the shares are fair, and a refusal is for a fault that the
/// question has.
pub fn apportion<R: SharingRule, T: Weighted>(
    rule: &R,
    total: i64,
    items: &[T],
    out: &mut [i64],
) -> Result<(), ShareFault>
    ensures answers { result ≡ answer (judged (R.SharingRule.greatest rule.now) (length out.old) total (map T.Weighted.weight items.now)) }
    ensures leaves { out.new ≡ left_in (judged (R.SharingRule.greatest rule.now) (length out.old) total (map T.Weighted.weight items.now)) (R.SharingRule.shares rule.now total (map T.Weighted.weight items.now)) out.old }
    ensures fair { MatchResult result (λ _. Fair total (map T.Weighted.weight items.now) (take (length items.now) out.new)) (λ f. Refused (R.SharingRule.greatest rule.now) (length out.old) total (map T.Weighted.weight items.now) f) }
{
    rule.share(total, items, out)
}
