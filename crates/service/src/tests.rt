// Worked comparisons.
use crate::{CompareError, LampSeconds, compare};

fn reading(earlier: u32, later: u32) -> LampSeconds {
    LampSeconds { earlier, later }
}

// a lamp that burnt, one that did not, and a new one
#[test]
fn all_forwards(rt: HostRuntime) {
    let mut out = [7; 3];
    let readings = [reading(3600, 7200), reading(41, 41), reading(0, 5)];
    assert_eq!(rt; compare(&readings, &mut out), Ok(None));
    assert_eq!(rt; out, [3600, 0, 5]);
}

// the first of the two that went backwards
#[test]
fn second_and_third(rt: HostRuntime) {
    let mut out = [7; 3];
    let readings = [reading(3600, 7200), reading(41, 40), reading(9, 0)];
    assert_eq!(rt; compare(&readings, &mut out), Ok(Some(1)));
    assert_eq!(rt; out, [3600, -1, -9]);
}

// RULES, Service: exact at both ends
#[test]
fn both_ends(rt: HostRuntime) {
    let mut out = [7; 64];
    let readings = [reading(0, u32::MAX), reading(u32::MAX, 0)];
    assert_eq!(rt; compare(&readings, &mut out), Ok(Some(1)));
    assert_eq!(rt;
        [out[0], out[1], out[2]],
        [4_294_967_295, -4_294_967_295, 7]
    );
}

#[test]
fn nothing_to_compare(rt: HostRuntime) {
    assert_eq!(rt; compare(&[], &mut []), Ok(None));
}

#[test]
fn no_room(rt: HostRuntime) {
    let mut out = [7];
    assert_eq!(rt;
        compare(&[reading(1, 1), reading(1, 2)], &mut out),
        Err(CompareError::NoRoom)
    );
    assert_eq!(rt; out, [7]);
}
