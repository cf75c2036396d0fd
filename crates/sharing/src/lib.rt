//! Who bears how much of a total: weights, the trait of a sharing rule with its laws, and two rules.
//!
//! The crate knows nothing of what is shared. An amount is a whole number of cents, a payment negative.
#![tactic(auto)]

pub mod fault;
pub mod rule;
#[cfg(test)]
mod tests;
pub mod weight;

pub use fault::{Fault, Layer, Notice, ShareFault};
pub use rule::in_turn::InTurn;
pub use rule::named::{NamedRule, UnknownRule};
pub use rule::running::Running;
pub use rule::{SharingRule, apportion, share_by};
pub use weight::{Weighted, total_weight};
