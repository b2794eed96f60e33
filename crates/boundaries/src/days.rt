// Days of both vendors: deliveries on the quoted day, each cause, and the end of the term.
use std::test::Fail;
use supplier::{Cause, Fault, Kind, Line, Supplier, TERM};
use vendors::{Calendar, Pipeline};

#[test]
fn pipeline_delivers_after_its_lead(rt: HostRuntime) {
    let mut vendor = Pipeline::new(3, 2, 60);
    assert_eq!(rt; vendor.day(60), Ok(0));
    assert_eq!(rt; vendor.day(5), Ok(0));
    assert_eq!(rt; vendor.day(0), Ok(60));
    let line = Line {
        number: 3,
        kind: Kind::Pipeline,
        order: 0,
        delivery: 60,
        held: 5,
    };
    assert_eq!(rt; vendor.line(0), Some(line));
    assert_eq!(rt; vendor.day(7), Ok(5));
}

#[test]
fn no_lead_delivers_at_once(rt: HostRuntime) -> Result<(), Fail> {
    let mut vendor = Pipeline::new(3, 0, 60);
    assert_eq!(rt; vendor.day(60), Ok(60));
    let line = vendor.line(0).ok_or("no line")?;
    assert_eq!(rt; line.held, 0);
    Ok(())
}

// The order of day 1 is due on day 64, when it has left the book.
#[test]
fn longest_lead(rt: HostRuntime) -> Result<(), Fail> {
    let mut vendor = Pipeline::new(3, 63, 60);
    assert_eq!(rt; vendor.day(41), Ok(0));
    for _ in 0..62 {
        assert_eq!(rt; vendor.day(1), Ok(0));
    }
    assert_eq!(rt; vendor.day(2), Ok(41));
    let line = vendor.line(0).ok_or("no line")?;
    assert_eq!(rt; line.delivery, 41);
    assert_eq!(rt; line.held, 64);
    Ok(())
}

#[test]
fn a_day_over_its_limit(rt: HostRuntime) -> Result<(), Fail> {
    let mut vendor = Pipeline::new(3, 2, 60);
    let fault = Fault {
        cause: Cause::OverDay,
        number: 3,
        day: 1,
        window: 1,
        bound: 60,
        sum: u64::MAX,
        layers: 0,
    };
    assert_eq!(rt; vendor.trial(60), None);
    assert_eq!(rt; vendor.trial(61).ok_or("taken")?.sum, 61);
    assert_eq!(rt; vendor.trial(u64::MAX), Some(fault));
    assert_eq!(rt; vendor.day(u64::MAX), Err(fault));
    assert_eq!(rt; vendor.days(), 0);
    Ok(())
}

// The shortest broken window is told, as the days move on.
#[test]
fn a_window_over_its_limit(rt: HostRuntime) -> Result<(), Fail> {
    let mut vendor = Calendar::new(4, 127, 0, 100);
    assert_eq!(rt; vendor.day(40), Ok(40));
    assert_eq!(rt; vendor.day(60), Ok(60));
    let fault = Fault {
        cause: Cause::OverWindow,
        number: 4,
        day: 3,
        window: 2,
        bound: 100,
        sum: 101,
        layers: 0,
    };
    assert_eq!(rt; vendor.day(41), Err(fault));
    assert_eq!(rt; vendor.day(0), Ok(0));
    assert_eq!(rt; vendor.trial(1).ok_or("taken")?.window, 4);
    for _ in 0..4 {
        assert_eq!(rt; vendor.day(0), Ok(0));
    }
    assert_eq!(rt; vendor.trial(41).ok_or("taken")?.window, 7);
    assert_eq!(rt; vendor.day(40), Ok(40));
    Ok(())
}

#[test]
fn the_term_is_spent(rt: HostRuntime) {
    let mut vendor = Pipeline::new(3, 2, 60);
    for _ in 0..TERM {
        let _ = vendor.day(1);
    }
    assert_eq!(rt; vendor.days(), 1_000_000);
    let fault = Fault {
        cause: Cause::TermSpent,
        number: 3,
        day: 1_000_001,
        window: 0,
        bound: 1_000_000,
        sum: 1_000_000,
        layers: 0,
    };
    assert_eq!(rt; vendor.day(0), Err(fault));
}
