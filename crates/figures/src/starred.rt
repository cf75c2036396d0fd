//! The starred figures: worked examples that are proved of the definitions, in one list.
ghost use Rattle.std.specs.Prelude.{◌≡◌};
ghost use Rattle.std.specs.List.{AllByRecursion};
ghost use Rattle.figures.specs.Starred.{starred, Holds};

use crate::figure::Figure;
use charges::{Availability, Basis, Capacity, StandbyHour, StandbyTerms};
use sharing::NamedRule;

/// The list, which is proved to hold.
pub fn starred_figures() -> [Figure; 9]
    ensures listed { result ≡ starred }
    ensures hold { AllByRecursion Holds result }
{
    let weights = [1, 1, 1];
    let availability = Availability {
        target: 9_000,
        elapsed_hours: 5_000,
        term_hours: 8_760,
    };
    [
        Figure::Shares {
            rule: NamedRule::Running,
            total: 100,
            weights,
            shares: [33, 33, 34],
        },
        Figure::Shares {
            rule: NamedRule::InTurn,
            total: 100,
            weights,
            shares: [34, 33, 33],
        },
        Figure::Shares {
            rule: NamedRule::Running,
            total: -100,
            weights,
            shares: [-33, -33, -34],
        },
        Figure::Shares {
            rule: NamedRule::InTurn,
            total: -100,
            weights,
            shares: [-34, -33, -33],
        },
        Figure::Standby {
            terms: StandbyTerms {
                basis: Basis::Filed,
                dollars: 720_000,
                cents: 0,
                agreement_hours: 720,
                incentive: 1_000,
                capacity: Capacity {
                    contract_kw: 400_000,
                    tested_kw: 400_000,
                    adjusting_kw: 0,
                },
                availability,
            },
            at: StandbyHour {
                hour: 0,
                available: 3_942,
            },
            amount: -110_000,
        },
        Figure::CapacityFactor {
            capacity: Capacity {
                contract_kw: 400_000,
                tested_kw: 380_000,
                adjusting_kw: 20_000,
            },
            factor: 1_000_000,
        },
        Figure::CapacityFactor {
            capacity: Capacity {
                contract_kw: 400_000,
                tested_kw: 380_000,
                adjusting_kw: 19_999,
            },
            factor: 900_000,
        },
        Figure::AvailabilityFactor {
            availability,
            at: StandbyHour {
                hour: 0,
                available: 3_942,
            },
            factor: 1_000_000,
        },
        Figure::AvailabilityFactor {
            availability,
            at: StandbyHour {
                hour: 0,
                available: 3_941,
            },
            factor: 999_543,
        },
    ]
}
