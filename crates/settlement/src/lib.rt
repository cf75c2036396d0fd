//! A whole day file is settled: what each QSE is paid and charged in each hour of the day.
//!
//! Amounts are whole cents; a payment is negative and a charge positive.
#![tactic(auto)]

pub mod fault;

pub use fault::{FileFault, SettleFault};
