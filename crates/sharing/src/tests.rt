//! Each limit at and one past it, the order of refusals, and what they leave.
use crate::fault::{Fault, Layer, ShareFault};
use crate::rule::in_turn::InTurn;
use crate::rule::running::Running;
use crate::rule::{SharingRule, apportion};
use crate::weight::total_weight;

const HEAVY: u32 = 100_000_001;

#[test]
fn weight_limit(rt: HostRuntime) {
    let mut out = [7; 3];
    assert_eq!(rt;
        apportion(&Running, 5, &[100_000_000, 100_000_000], &mut out),
        Ok(())
    );
    assert_eq!(rt; out, [2, 3, 7]);
    let fault = ShareFault::WeightOverLimit { place: 1 };
    assert_eq!(rt;
        apportion(&Running, 5, &[0, HEAVY, HEAVY], &mut out),
        Err(fault)
    );
    assert_eq!(rt; out, [2, 3, 7]);
    assert_eq!(rt; fault.number(), 4);
    assert_eq!(rt; fault.place(), 1);
    assert_eq!(rt; fault.layer(), Layer::Word);
}

#[test]
fn total_limit(rt: HostRuntime) {
    let mut out = [7; 2];
    assert_eq!(rt; apportion(&InTurn, 1_000_000_000, &[1], &mut out), Ok(()));
    assert_eq!(rt; out, [1_000_000_000, 7]);
    assert_eq!(rt; apportion(&InTurn, -1_000_000_000, &[1], &mut out), Ok(()));
    assert_eq!(rt; out, [-1_000_000_000, 7]);
    assert_eq!(rt;
        apportion(&InTurn, 1_000_000_001, &[1], &mut out),
        Err(ShareFault::TotalOverLimit)
    );
    assert_eq!(rt;
        apportion(&InTurn, i64::MIN, &[1], &mut out),
        Err(ShareFault::TotalOverLimit)
    );
    assert_eq!(rt; out, [-1_000_000_000, 7]);
}

#[test]
fn greatest_count(rt: HostRuntime) {
    let mut out = [0; 65];
    let weights = [1; 65];
    assert_eq!(rt; apportion(&Running, 64, &weights[0..64], &mut out), Ok(()));
    assert_eq!(rt;
        apportion(&Running, 64, &weights, &mut out),
        Err(ShareFault::TooManyWeights)
    );
    assert_eq!(rt; apportion(&InTurn, 64, &weights[0..32], &mut out), Ok(()));
    assert_eq!(rt;
        apportion(&InTurn, 64, &weights[0..33], &mut out),
        Err(ShareFault::TooManyWeights)
    );
    assert_eq!(rt; out[31], 2);
    assert_eq!(rt; out[32], 1);
}

#[test]
fn no_weight(rt: HostRuntime) {
    let mut out = [7; 2];
    let none: [u32; 0] = [];
    assert_eq!(rt; apportion(&Running, 0, &none, &mut out), Ok(()));
    assert_eq!(rt; out, [7, 7]);
    assert_eq!(rt;
        apportion(&Running, 1, &none, &mut out),
        Err(ShareFault::NoWeight)
    );
    assert_eq!(rt; apportion(&InTurn, 0, &[0, 0], &mut out), Ok(()));
    assert_eq!(rt; out, [0, 0]);
    assert_eq!(rt;
        apportion(&InTurn, -1, &[0, 0], &mut out),
        Err(ShareFault::NoWeight)
    );
}

/// A question with every fault is refused for the first; each fault mended uncovers the next.
#[test]
fn order_of_refusals(rt: HostRuntime) {
    let mut out = [7; 34];
    let mut weights = [HEAVY; 33];
    let total = 2_000_000_000;
    assert_eq!(rt;
        apportion(&InTurn, total, &weights, &mut out[0..32]),
        Err(ShareFault::NoRoom)
    );
    assert_eq!(rt;
        apportion(&InTurn, total, &weights, &mut out),
        Err(ShareFault::TooManyWeights)
    );
    let fault = ShareFault::WeightOverLimit { place: 0 };
    assert_eq!(rt;
        apportion(&InTurn, total, &weights[0..32], &mut out),
        Err(fault)
    );
    weights = [0; 33];
    assert_eq!(rt;
        apportion(&InTurn, total, &weights[0..32], &mut out),
        Err(ShareFault::TotalOverLimit)
    );
    assert_eq!(rt;
        apportion(&InTurn, 1, &weights[0..32], &mut out),
        Err(ShareFault::NoWeight)
    );
    assert_eq!(rt; apportion(&InTurn, 0, &weights[0..32], &mut out), Ok(()));
    assert_eq!(rt; out[31], 0);
    assert_eq!(rt; out[32], 7);
}

/// A cent left over goes to the first that weigh something, and a weight of 0 gets nothing.
#[test]
fn leftovers(rt: HostRuntime) {
    let mut out = [7; 5];
    assert_eq!(rt; InTurn.share(-5, &[0, 1, 1, 0, 1], &mut out), Ok(()));
    assert_eq!(rt; out, [0, -2, -2, 0, -1]);
    assert_eq!(rt; Running.share(-5, &[0, 1, 1, 0, 1], &mut out), Ok(()));
    assert_eq!(rt; out, [0, -1, -2, 0, -2]);
}

/// A sum of weights beyond 32 bits.
#[test]
fn long_sum(rt: HostRuntime) {
    let weights = [100_000_000; 1000];
    assert_eq!(rt; total_weight(&weights), Ok(100_000_000_000));
}
