//! Examples of the three likenesses.
use crate::exact::Exact;
use crate::likeness::Likeness;
use crate::sea_state::{SeaState, sea_state_class};
use crate::within::{MAX_TOLERANCE, ToleranceFault, Within};

/// Whether two readings are alike within the tolerance.
fn alike_within(tolerance: u16, old: i16, new: i16) -> bool {
    let mut within = Within::new();
    within.set(0, tolerance).is_ok() && within.alike(0, old, new)
}

#[test]
fn only_equal_readings_are_exactly_alike(rt: HostRuntime) {
    assert!(rt; Exact.alike(0, -7, -7));
    assert!(rt; !Exact.alike(0, 7, -7));
}

#[test]
fn tolerances_include_their_end(rt: HostRuntime) {
    assert!(rt; alike_within(4, 5, 9));
    assert!(rt; !alike_within(3, 5, 9));
    assert!(rt; alike_within(MAX_TOLERANCE, 0, 1_000));
    assert!(rt; !alike_within(MAX_TOLERANCE, 0, 1_001));
    assert!(rt; !alike_within(MAX_TOLERANCE, i16::MIN, i16::MAX));
}

#[test]
fn refusals_come_in_order(rt: HostRuntime) {
    let mut within = Within::new();
    assert_eq!(rt; within.set(7, 4), Ok(()));
    assert_eq!(rt; within.set(8, 1_001), Err(ToleranceFault::TooWide));
    assert_eq!(rt; within.set(7, 1_001), Err(ToleranceFault::TooWide));
    assert_eq!(rt; within.set(8, 1_000), Err(ToleranceFault::NoChannel));
    assert_eq!(rt; within.tolerance(6), 0);
    assert_eq!(rt; within.tolerance(7), 4);
    assert_eq!(rt; within.tolerance(8), 0);
}

#[test]
fn class_ends_belong_to_their_class(rt: HostRuntime) {
    assert_eq!(rt; sea_state_class(-5), 0);
    assert_eq!(rt; sea_state_class(0), 0);
    assert_eq!(rt; sea_state_class(1), 1);
    assert_eq!(rt; sea_state_class(125), 3);
    assert_eq!(rt; sea_state_class(126), 4);
    assert_eq!(rt; sea_state_class(1_400), 8);
    assert_eq!(rt; sea_state_class(1_401), 9);
}

#[test]
fn sea_states_count_on_their_channel(rt: HostRuntime) {
    let sea_state = SeaState::on(2);
    assert!(rt; sea_state.alike(2, 51, 125));
    assert!(rt; !sea_state.alike(3, 51, 125));
}
