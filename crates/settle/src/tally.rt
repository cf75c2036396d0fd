//! What the desk has done so far.
ghost use Rattle.std.specs.Prelude.{◌≡◌};
ghost use Rattle.sharing.specs.Laws.{sum_ℤ};
ghost use Rattle.settle.specs.Tallies.{nothing_done, with_shares, with_block, with_refusal, with_unread};

/// Counts of answers, and the sums of the totals that were shared, of their shares and of the blocks' amounts.
#[derive(Clone, Copy, Default)]
pub struct Tally {
    pub shared: u64,
    pub refused: u64,
    pub unread: u64,
    pub totals: i128,
    pub shares: i128,
    pub blocks: u64,
    pub amounts: i128,
}

impl Tally {
    /// The tally of a desk that has done nothing.
    pub fn new() -> Self
        ensures { result ≡ nothing_done }
    {
        Self::default()
    }

    pub fn note_shares(&mut self, total: i64, shares: &[i64])
        ensures { self.new ≡ with_shares self.old total shares.now }
    {
        self.shared = self.shared.saturating_add(1);
        self.totals = self.totals.saturating_add(i128::from(total));
        self.shares = self.shares.saturating_add(sum_cents(shares));
    }

    pub fn note_block(&mut self, amounts: &[i64])
        ensures { self.new ≡ with_block self.old amounts.now }
    {
        self.blocks = self.blocks.saturating_add(1);
        self.amounts = self.amounts.saturating_add(sum_cents(amounts));
    }

    pub fn note_refusal(&mut self)
        ensures { self.new ≡ with_refusal self.old }
    {
        self.refused = self.refused.saturating_add(1);
    }

    pub fn note_unread(&mut self)
        ensures { self.new ≡ with_unread self.old }
    {
        self.unread = self.unread.saturating_add(1);
    }
}

/// A slice has fewer than 2^64 amounts of 64 bits, so 128 bits hold their sum.
fn sum_cents(amounts: &[i64]) -> i128
    ensures { result ≡ sum_ℤ amounts.now }
{
    // `iter().map(..).sum()` was tried: nothing says that each item of a signed slice is what the closure read.
    let mut sum: i128 = 0;
    for amount in amounts {
        sum += i128::from(*amount);
    }
    sum
}
