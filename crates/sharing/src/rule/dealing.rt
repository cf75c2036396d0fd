//! What the rules have in common that deal an amount out sharer by sharer: all but the share of one sharer.
//!
//! The traits are the crate's own: their methods ask something of their caller, which is `share_by` alone.
ghost use Rattle.std.specs.Prelude.{◌≡◌, ℕ, ◌≤◌, ◌++◌, List, map, length, drop, ℤ, sum, OnOk, unsigned_abs};
ghost use Rattle.sharing.specs.Amounts.{either_sign, by_place};
ghost use Rattle.sharing.specs.BothSigns.{AmountLaws, laws_of};
ghost use Rattle.sharing.specs.Dealing.{Dealt};
ghost use Rattle.sharing.specs.Question.{greatest_total, judged, answer, left_in};
ghost use Rattle.sharing.specs.Weighing.{ReadAt};

use crate::fault::ShareFault;
use crate::rule::cents::{Division, with_sign_of};
use crate::rule::{SharingRule, judge};
use crate::weight::Weighted;

/// What a rule remembers while it deals an amount out, one share after another.
pub trait Dealer: Drop {
    ghost share_at: { ℕ → List ℕ → ℕ → ℕ };

    ghost shares: { ℕ → List ℕ → List ℕ };

    ghost greatest: { ℕ };

    ghost Sentence: { ℤ → List ℕ → List ℤ → Type 0 };

    ghost Ready: { Self → ℕ → List ℕ → ℕ → Type 0 };

    /// The most sharers that the rule deals to.
    fn greatest() -> usize
        ensures { result ≡ greatest };

    /// Ready to deal to the first of the sharers.
    fn begin<T: Weighted>(division: Division, items: &[T]) -> Self
        requires { division.all ≡ sum (map T.Weighted.weight items.now) }
        ensures { Ready result division.amount (map T.Weighted.weight items.now) 0 };

    /// The share of the sharer whose turn it is.
    fn deal(&mut self, weight: u32) -> u64
        requires { (amount : ℕ) × (ws : List ℕ) × (k : ℕ) × ReadAt ws k weight × Ready self.old amount ws k }
        ensures { (amount : ℕ) (ws : List ℕ) (k : ℕ) → ReadAt ws k weight → Ready self.old amount ws k → Dealt share_at (Ready self.new) amount ws k result };

    ghost takes_a_day: { 25 ≤ greatest };

    ghost each_place: { (amount : ℕ) (ws : List ℕ) → shares amount ws ≡ by_place (share_at amount ws) ws };

    ghost lawful: { AmountLaws shares };

    ghost says: { (total : ℤ) (ws : List ℕ) (memory : List ℤ) → Sentence total ws (either_sign shares total ws ++ memory) };
}

/// A sharing rule that is all in how it deals.
pub trait DealingRule {
    type DealtBy: Dealer;
}

impl<R: DealingRule> SharingRule for R {
    ghost shares = { λ _. either_sign R.DealtBy.shares };

    ghost greatest = { λ _. R.DealtBy.greatest };

    ghost fair = { λ rule. laws_of R.DealtBy.lawful R.DealtBy.greatest R.DealtBy.takes_a_day };

    fn greatest(&self) -> usize {
        R::DealtBy::greatest()
    }

    fn share<T: Weighted>(
        &self,
        total: i64,
        items: &[T],
        out: &mut [i64],
    ) -> Result<(), ShareFault> {
        share_by(self, total, items, out)
    }
}

/// Shares `total` among `items` by a rule that deals, with the rule's own sentence.
pub fn share_by<R: DealingRule, T: Weighted>(
    _rule: &R,
    total: i64,
    items: &[T],
    out: &mut [i64],
) -> Result<(), ShareFault>
    ensures answers { result ≡ answer (judged R.DealtBy.greatest (length out.old) total (map T.Weighted.weight items.now)) }
    ensures leaves { out.new ≡ left_in (judged R.DealtBy.greatest (length out.old) total (map T.Weighted.weight items.now)) (either_sign R.DealtBy.shares total (map T.Weighted.weight items.now)) out.old }
    ensures says { OnOk result (R.DealtBy.Sentence total (map T.Weighted.weight items.now) out.new) }
{
    let room = out.len();
    let all = judge(R::DealtBy::greatest(), room, total, items)?;
    let amount = total.unsigned_abs();
    let dealer = R::DealtBy::begin(Division { amount, all }, items);
    deal_out(dealer, total, items, out);
    Ok(())
}

fn deal_out<D: Dealer, T: Weighted>(dealer: D, total: i64, items: &[T], out: &mut [i64])
    requires ready { D.Dealer.Ready dealer (unsigned_abs total) (map T.Weighted.weight items.now) 0 }
    requires small { unsigned_abs total ≤ greatest_total }
    requires room { length items.now ≤ length out.old }
    ensures { out.new ≡ either_sign D.Dealer.shares total (map T.Weighted.weight items.now) ++ drop (length items.now) out.old }
{
    let mut dealer = dealer;
    // A zip over `out.iter_mut()` was tried: its contract loses what is written.
    for (i, item) in items.iter().enumerate() {
        let share = dealer.deal(item.weight());
        out[i] = with_sign_of(total, share);
    }
}
