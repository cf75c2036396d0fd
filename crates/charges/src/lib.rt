//! What a unit's block of a day file pays in each hour: the trait of a charge type, two types as one, and the types.
//!
//! Amounts are whole cents; a payment to the unit is negative.
#![tactic(auto)]

pub mod block;
pub mod both;
pub mod charge;
pub mod fault;
pub mod named;
pub mod rounding;
pub mod standby;

pub use both::Both;
pub use charge::{Asked, ChargeType, charge_part};
pub use fault::{BlockFault, ChargeFault};
pub use named::{NamedCharge, UnknownCharge};
pub use rounding::nearest;
pub use standby::terms::{Availability, Basis, Capacity, StandbyHour, StandbyTerms};
pub use standby::{Standby, charge_standby};
