//! The arithmetic that the rules have in common: an amount over a sum of weights, and amounts with a total's sign.
ghost use Rattle.std.specs.Prelude.{◌≡◌, ◌+◌, ◌*◌, ◌/◌, ◌^◌, ◌<◌, ◌≤◌};
ghost use Rattle.sharing.specs.Amounts.{with_sign_of};
ghost use Rattle.sharing.specs.Question.{greatest_total};

/// An amount of cents, and the sum of the weights that it is divided over.
#[derive(Clone, Copy)]
pub struct Division {
    pub amount: u64,
    pub all: u128,
    ghost small: { amount ≤ greatest_total },
    ghost bound: { all < 2 ^ 96 },
}

impl Division {
    /// floor(amount × part / all), and 0 where `all` is 0.
    pub(crate) fn quota(&self, part: u128) -> u64
        requires { part ≤ self.now.all }
        ensures value { result ≡ self.now.amount * part / self.now.all }
        ensures bound { result ≤ self.now.amount }
    {
        let all = self.all;
        if all == 0 {
            return 0;
        }
        // No more than the amount, so the cast fits; `try_from` would have an error that nothing can meet.
        (u128::from(self.amount) * part / all) as u64
    }
}

/// The amount as a charge where the total is one, as a payment where the total is negative.
pub(crate) fn with_sign_of(total: i64, amount: u64) -> i64
    requires { amount ≤ greatest_total + 1 }
    ensures { result ≡ with_sign_of total amount }
{
    // As in `quota`, the cast fits.
    let cents = amount as i64;
    if total < 0 { -cents } else { cents }
}
