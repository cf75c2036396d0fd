//! The one rounding of the engine.
ghost use Rattle.std.specs.Prelude.{◌≡◌, ◌<◌};
ghost use Rattle.charges.specs.Rounding.{rounded, Nearest};

/// The quotient rounded to the nearest whole number, a half away from zero; 0 where the denominator is 0.
#[tactic(auto, using(crate::proofs::Rounds::rounds_up))]
pub fn nearest(numerator: u128, denominator: u64) -> u128
    ensures is { result ≡ rounded numerator denominator }
    ensures means { 0 < denominator → Nearest numerator denominator result }
{
    let parts = u128::from(denominator);
    if parts == 0 {
        return 0;
    }
    let floor = numerator / parts;
    let rest = numerator % parts;
    if rest < parts - rest {
        floor
    } else {
        floor + 1
    }
}
