//! What a worked figure says, and a trial of one by the engine.
ghost use Rattle.std.specs.Prelude.{◌≡◌, false, Ok, Decides};
ghost use Rattle.charges.specs.Standby.{amount_of};
ghost use Rattle.figures.specs.Starred.{Gives, Holds};

use charges::{Availability, Capacity, StandbyHour, StandbyTerms};
use sharing::{NamedRule, apportion};
use std::fmt;

#[derive(Clone, Copy)]
pub enum Figure {
    /// The shares of a total over three weights by a rule.
    Shares {
        rule: NamedRule,
        total: i64,
        weights: [u32; 3],
        shares: [i64; 3],
    },
    /// The capacity factor of a must-run unit, in millionths.
    CapacityFactor {
        capacity: Capacity,
        factor: u64,
    },
    /// The availability factor of a must-run unit in an hour, in millionths.
    AvailabilityFactor {
        availability: Availability,
        at: StandbyHour,
        factor: u64,
    },
    /// The standby amount of an hour in a run that is not trued up, in cents.
    Standby {
        terms: StandbyTerms,
        at: StandbyHour,
        amount: i64,
    },
}

/// Whether the engine gives what the figure says.
pub fn try_figure(figure: Figure) -> bool
    ensures { Decides result (Holds figure) }
{
    match figure {
        Figure::Shares {
            rule,
            total,
            weights,
            shares,
        } => gives(rule, total, weights, shares),
        Figure::CapacityFactor { capacity, factor } => capacity.factor() == factor,
        Figure::AvailabilityFactor {
            availability,
            at,
            factor,
        } => availability.factor(at) == factor,
        Figure::Standby { terms, at, amount } => pays(terms, at, amount),
    }
}

fn pays(terms: StandbyTerms, at: StandbyHour, amount: i64) -> bool
    ensures { Decides result (amount_of terms false at.hour at.available ≡ Ok amount) }
{
    terms.amount(false, at) == Ok(amount)
}

fn gives(rule: NamedRule, total: i64, weights: [u32; 3], shares: [i64; 3]) -> bool
    ensures { Decides result (Gives rule total weights shares) }
{
    let mut given = [0; 3];
    apportion(&rule, total, &weights, &mut given).is_ok() && given == shares
}

impl fmt::Display for Figure {
    fn fmt<W: fmt::Write>(&self, f: &mut fmt::Formatter<W>) -> fmt::Result {
        match self {
            Figure::Shares {
                rule,
                total,
                weights,
                shares,
            } => write!(
                f,
                "{total} over {} by the {rule} rule: {}",
                Three(*weights),
                Three(*shares)
            ),
            Figure::CapacityFactor { capacity, factor } => {
                write!(f, "{}: C {factor}", Shown(*capacity))
            }
            Figure::AvailabilityFactor {
                availability,
                at,
                factor,
            } => write!(
                f,
                "{}, hour {}, n {}: A {factor}",
                Shown(*availability),
                at.hour,
                at.available
            ),
            Figure::Standby { terms, at, amount } => write!(
                f,
                "{}, C {}, A {}: {amount}",
                Shown(*terms),
                terms.capacity.factor(),
                terms.availability.factor(*at)
            ),
        }
    }
}

/// Three numbers with commas between them.
#[derive(Clone, Copy)]
struct Three<T>([T; 3]);

impl<T: fmt::Display> fmt::Display for Three<T> {
    fn fmt<W: fmt::Write>(&self, f: &mut fmt::Formatter<W>) -> fmt::Result {
        let Three([first, second, third]) = self;
        write!(f, "{first}, {second}, {third}")
    }
}

/// Numbers of a unit by the names that the market gives them.
#[derive(Clone, Copy)]
struct Shown<T>(T);

impl fmt::Display for Shown<Capacity> {
    fn fmt<W: fmt::Write>(&self, f: &mut fmt::Formatter<W>) -> fmt::Result {
        let Capacity {
            contract_kw,
            tested_kw,
            adjusting_kw,
        } = self.0;
        write!(
            f,
            "CCAP {contract_kw}, TCAP {tested_kw}, TCAPA {adjusting_kw}"
        )
    }
}

impl fmt::Display for Shown<Availability> {
    fn fmt<W: fmt::Write>(&self, f: &mut fmt::Formatter<W>) -> fmt::Result {
        let Availability {
            target,
            elapsed_hours,
            term_hours,
        } = self.0;
        write!(f, "TA {target}, E {elapsed_hours}, HCP {term_hours}")
    }
}

impl fmt::Display for Shown<StandbyTerms> {
    fn fmt<W: fmt::Write>(&self, f: &mut fmt::Formatter<W>) -> fmt::Result {
        let StandbyTerms {
            dollars,
            agreement_hours,
            incentive,
            ..
        } = self.0;
        write!(
            f,
            "standby of ${dollars}, MH {agreement_hours}, IF {incentive}"
        )
    }
}
