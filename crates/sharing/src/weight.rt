//! What has a weight, and the sum of weights.
ghost use Rattle.std.specs.Prelude.{◌≡◌, ℕ, map};
ghost use Rattle.sharing.specs.Weights.{weighed};

use crate::fault::ShareFault;

/// The most that one sharer may weigh.
pub const GREATEST_WEIGHT: u32 = 100_000_000;

/// Anything that has a weight: a load weighs its kWh, an hour its commitment.
pub trait Weighted {
    ghost weight: { Self → ℕ };

    fn weight(&self) -> u32
        ensures { result ≡ weight self.now };
}

/// A plain number weighs itself.
impl Weighted for u32 {
    ghost weight = { λ w. w };

    fn weight(&self) -> u32 {
        *self
    }
}

/// The sum of the weights, or the first weight over the limit.
///
/// A slice has fewer than 2^64 items and each weighs less than 2^27, so 128 bits hold the sum of every slice.
#[tactic(auto, unfolding(crate::specs::Weights::weighed))]
pub fn total_weight<T: Weighted>(items: &[T]) -> Result<u128, ShareFault>
    ensures { result ≡ weighed (map T.Weighted.weight items.now) }
{
    let mut sum: u128 = 0;
    for (place, item) in items.iter().enumerate() {
        let weight = item.weight();
        if weight > GREATEST_WEIGHT {
            return Err(ShareFault::WeightOverLimit { place });
        }
        sum += u128::from(weight);
    }
    Ok(sum)
}
