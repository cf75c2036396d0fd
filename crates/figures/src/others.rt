//! Figures that are not proved, and tried on the engine only.
use crate::figure::Figure;
use charges::{Availability, StandbyHour};

pub fn other_figures() -> [Figure; 3] {
    let at = Availability {
        target: 9_000,
        elapsed_hours: 5_000,
        term_hours: 8_760,
    };
    [
        Figure::AvailabilityFactor {
            availability: at,
            at: StandbyHour {
                hour: 0,
                available: 1_752,
            },
            factor: 0,
        },
        // The first sixth of the term: 1,460 hours of 8,760. Without an available hour the factor is 0 where the window
        // counts.
        Figure::AvailabilityFactor {
            availability: Availability {
                elapsed_hours: 1_459,
                ..at
            },
            at: StandbyHour {
                hour: 0,
                available: 0,
            },
            factor: 1_000_000,
        },
        Figure::AvailabilityFactor {
            availability: Availability {
                elapsed_hours: 1_460,
                ..at
            },
            at: StandbyHour {
                hour: 0,
                available: 0,
            },
            factor: 0,
        },
    ]
}
