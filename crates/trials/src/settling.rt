// Which line decides on small charts, by its place. Account 1 owns each.
use charts::{Mark, Marks, search};
use rulings::{House, Ruling, Seniority};
use settlement::settle;
use std::process::Abort;
use terms::Kind;

fn mark(from: u16, to: u16, kind: Kind, serial: u16) -> Mark {
    Mark {
        from,
        to,
        kind,
        serial,
    }
}

fn picks<R: Ruling>(
    rt: &impl Abort,
    marks: &[Mark],
    ruling: &R,
    policy: u8,
    account: u16,
    place: Option<u16>,
) {
    let settled = settle(&Marks { marks }, 1, ruling, policy);
    assert_eq!(rt; settled.pick(account), place);
}

// Account 4 has a line from 2 and one from 3, of which neither is above the other.
#[test]
fn the_ruling_decides_between_equals(rt: HostRuntime) {
    picks(&rt, &[], &House, 0, 4, None);
    let marks = [
        mark(1, 2, Kind::Delegatable, 1),
        mark(1, 3, Kind::Delegatable, 2),
        mark(2, 4, Kind::Plain, 3),
        mark(3, 4, Kind::Denying, 4),
    ];
    picks(&rt, &marks, &House, 0, 4, Some(2));
    picks(&rt, &marks, &House, 1, 4, Some(3));
    picks(&rt, &marks, &House, 2, 4, Some(2));
    picks(&rt, &marks, &House, 3, 4, Some(3));
    let third = Seniority {
        ranks: &[0, 0, 7, 9],
    };
    picks(&rt, &marks, &third, 0, 4, Some(3));
    picks(&rt, &marks, &third, 1, 4, Some(2));
    // past the end of the bytes account 3 has rank 0
    let second = Seniority { ranks: &[0, 0, 7] };
    picks(&rt, &marks, &second, 0, 4, Some(2));
    picks(&rt, &marks, &second, 1, 4, Some(3));
}

// The owner's own line overrides what comes to account 3 through 2, and denies it leave to grant on.
#[test]
fn the_line_from_above_decides(rt: HostRuntime) {
    let marks = [
        mark(1, 2, Kind::Delegatable, 1),
        mark(2, 3, Kind::Delegatable, 2),
        mark(3, 4, Kind::Plain, 3),
        mark(1, 3, Kind::Denying, 4),
    ];
    picks(&rt, &marks, &House, 2, 1, None);
    picks(&rt, &marks, &House, 2, 3, Some(3));
    picks(&rt, &marks, &House, 2, 4, None);
}

// In each chart one of two lines to account 4 is overridden by the other, which the policy ranks lower.
#[test]
fn every_line_counts_in_a_chain(rt: HostRuntime) {
    // Account 3 is above 2 by a line that denies and is overridden.
    let marks = [
        mark(1, 2, Kind::Delegatable, 1),
        mark(1, 3, Kind::Delegatable, 2),
        mark(3, 2, Kind::Denying, 3),
        mark(2, 4, Kind::Plain, 4),
        mark(3, 4, Kind::Denying, 5),
    ];
    picks(&rt, &marks, &House, 2, 2, Some(0));
    picks(&rt, &marks, &House, 2, 4, Some(4));
    // Account 3 is above 2 by a plain line, which is not overridden.
    let marks = [
        mark(1, 3, Kind::Delegatable, 1),
        mark(1, 5, Kind::Delegatable, 2),
        mark(5, 2, Kind::Delegatable, 3),
        mark(3, 2, Kind::Plain, 4),
        mark(2, 4, Kind::Plain, 5),
        mark(3, 4, Kind::Denying, 6),
    ];
    picks(&rt, &marks, &House, 2, 2, Some(2));
    picks(&rt, &marks, &House, 2, 4, Some(5));
    // Account 2 is above 3 by a delegatable line, which is overridden.
    let marks = [
        mark(1, 2, Kind::Delegatable, 1),
        mark(2, 3, Kind::Delegatable, 2),
        mark(1, 3, Kind::Delegatable, 3),
        mark(2, 4, Kind::Plain, 4),
        mark(3, 4, Kind::Denying, 5),
    ];
    picks(&rt, &marks, &House, 1, 3, Some(2));
    picks(&rt, &marks, &House, 1, 4, Some(3));
}

// Lines lead round from 2 over 3 and 4, and to 2 from 5.
#[test]
fn a_search_ends_on_a_circle(rt: HostRuntime) {
    let marks = [
        mark(4, 2, Kind::Plain, 1),
        mark(3, 4, Kind::Plain, 2),
        mark(2, 3, Kind::Plain, 3),
        mark(5, 2, Kind::Plain, 4),
    ];
    let chart = Marks { marks: &marks };
    let round = search(&chart, 2);
    assert!(rt; round.contains(2) & round.contains(3) & round.contains(4) & !round.contains(5));
    let onto = search(&chart, 5);
    assert!(rt; onto.contains(2) & onto.contains(3) & onto.contains(4) & !onto.contains(5));
    assert!(rt; !search(&chart, 1).contains(1));
}
