// Both sides of every range, and what is made of figures that are refused.
use envelope::{Bucket, Envelope, Root, Table};
use figures::{HORIZON, Refusal};
use std::test::Fail;
use supplier::Supplier;
use vendors::{Calendar, Pipeline};

/// The figure at this place is out of range.
fn out(place: usize) -> Option<Refusal> {
    Some(Refusal::OutOfRange(place))
}

#[test]
fn pipeline_figures(rt: HostRuntime) {
    assert_eq!(rt; Pipeline::question(1, 0, 0), None);
    assert_eq!(rt; Pipeline::question(9_999, 63, 10_000_000), None);
    assert_eq!(rt; Pipeline::question(0, 64, 0), out(1));
    assert_eq!(rt; Pipeline::question(10_000, 0, 0), out(1));
    assert_eq!(rt; Pipeline::question(1, 64, 10_000_001), out(2));
    assert_eq!(rt; Pipeline::question(1, 63, 10_000_001), out(3));
    assert_eq!(rt; Pipeline::question(u64::MAX, u64::MAX, u64::MAX), out(1));
}

#[test]
fn refused_pipeline(rt: HostRuntime) -> Result<(), Fail> {
    let vendor = Pipeline::new(7, 64, 5);
    assert_eq!(rt; vendor.quote(), 0);
    assert_eq!(rt; vendor.limit(63), Some(0));
    let line = vendor.line(0).ok_or("no line")?;
    assert_eq!(rt; line.number, 7);
    let unnamed = Pipeline::new(0, 3, 5).line(0).ok_or("no line")?;
    assert_eq!(rt; unnamed.number, 1);
    let last = Pipeline::new(9_999, 3, 5).line(0).ok_or("no line")?;
    assert_eq!(rt; last.number, 9_999);
    let past = Pipeline::new(10_000, 3, 5).line(0).ok_or("no line")?;
    assert_eq!(rt; past.number, 1);
    Ok(())
}

#[test]
fn pipeline_limits(rt: HostRuntime) {
    let vendor = Pipeline::new(1, 63, 10_000_000);
    assert_eq!(rt; vendor.quote(), 63);
    assert_eq!(rt; vendor.limit(0), None);
    assert_eq!(rt; vendor.limit(1), Some(10_000_000));
    assert_eq!(rt; vendor.limit(63), Some(630_000_000));
    assert_eq!(rt; vendor.limit(64), None);
    assert_eq!(rt; vendor.lines(), 1);
    assert_eq!(rt; vendor.line(1), None);
}

#[test]
fn calendar_figures(rt: HostRuntime) {
    assert_eq!(rt; Calendar::question(1, 1, 0, 0), None);
    assert_eq!(rt; Calendar::question(9_999, 127, 49, 70_000_000), None);
    assert_eq!(rt; Calendar::question(0, 0, 0, 0), out(1));
    assert_eq!(rt; Calendar::question(10_000, 1, 0, 0), out(1));
    assert_eq!(rt; Calendar::question(1, 0, 50, 0), out(2));
    assert_eq!(rt; Calendar::question(1, 128, 0, 0), out(2));
    assert_eq!(rt; Calendar::question(1, 1, 50, 70_000_001), out(3));
    assert_eq!(rt; Calendar::question(1, 1, 49, 70_000_001), out(4));
}

#[test]
fn calendar_limits(rt: HostRuntime) -> Result<(), Fail> {
    let vendor = Calendar::new(1, 64, 49, 70_000_000);
    assert_eq!(rt; vendor.quote(), 55);
    assert_eq!(rt; vendor.arrival(0), None);
    assert_eq!(rt; vendor.limit(0), None);
    assert_eq!(rt; vendor.lines(), 1);
    assert_eq!(rt; vendor.line(1), None);
    assert_eq!(rt; vendor.limit(7), Some(70_000_000));
    assert_eq!(rt; vendor.limit(8), Some(140_000_000));
    assert_eq!(rt; vendor.limit(63), Some(630_000_000));
    assert_eq!(rt; vendor.limit(64), None);
    let refused = Calendar::new(5, 0, 3, 9);
    assert_eq!(rt; refused.quote(), 0);
    assert_eq!(rt; refused.departures(), 7);
    assert_eq!(rt; refused.limit(1), Some(0));
    let line = refused.line(0).ok_or("no line")?;
    assert_eq!(rt; line.number, 5);
    Ok(())
}

#[test]
fn bucket_figures(rt: HostRuntime) {
    assert_eq!(rt; Bucket::question(0, 0, 0), None);
    assert_eq!(rt; Bucket::question(10_000_000, 50_000_000, 10_000_000), None);
    assert_eq!(rt; Bucket::question(10_000_001, 50_000_001, 0), out(1));
    assert_eq!(rt; Bucket::question(0, 50_000_001, 10_000_001), out(2));
    assert_eq!(rt; Bucket::question(0, 50_000_000, 10_000_001), out(3));
    assert_eq!(rt; Bucket::question(4, 0, 4), None);
    assert_eq!(rt; Bucket::question(3, 0, 4), Some(Refusal::LawBroken(1)));
    let widest = Bucket::new(10_000_000, 50_000_000, 10_000_000);
    assert_eq!(rt; widest.bound(0), Some(0));
    assert_eq!(rt; widest.bound(63), Some(630_000_000));
    assert_eq!(rt; widest.bound(64), None);
    assert_eq!(rt; widest.mean(), 10_000_000);
    assert_eq!(rt; Bucket::new(3, 9, 4).bound(63), Some(0));
}

#[test]
fn root_figures(rt: HostRuntime) {
    assert_eq!(rt; Root::question(0, 0), None);
    assert_eq!(rt; Root::question(10_000_000, 1_000_000_000_000), None);
    assert_eq!(rt; Root::question(10_000_001, 1_000_000_000_001), out(1));
    assert_eq!(rt; Root::question(10_000_000, 1_000_000_000_001), out(2));
    let widest = Root::new(10_000_000, 1_000_000_000_000);
    assert_eq!(rt; widest.bound(1), Some(11_000_000));
    assert_eq!(rt; widest.bound(63), Some(637_937_254));
    assert_eq!(rt; widest.bound(64), None);
    assert_eq!(rt; widest.mean(), 10_000_000);
}

#[test]
fn table_figures(rt: HostRuntime) {
    assert_eq!(rt;
        Table::question(10_000_001, [1_000_000_001; HORIZON]),
        out(1)
    );
    assert_eq!(rt;
        Table::question(10_000_000, [1_000_000_001; HORIZON]),
        out(2)
    );
    assert_eq!(rt; Table::question(10_000_000, [1_000_000_000; HORIZON]), None);
    let mut bounds = [1_000_000_000; HORIZON];
    bounds[62] = 1_000_000_001;
    assert_eq!(rt; Table::question(0, bounds), out(64));
    bounds[62] = 999_999_999;
    assert_eq!(rt; Table::question(0, bounds), Some(Refusal::LawBroken(64)));
    assert_eq!(rt; Table::new(0, bounds).bound(1), Some(0));
    assert_eq!(rt;
        Table::question(1, [62; HORIZON]),
        Some(Refusal::LawBroken(64))
    );
    assert_eq!(rt; Table::question(0, [0; HORIZON]), None);
    let level = Table::new(1, [63; HORIZON]);
    assert_eq!(rt; level.bound(0), Some(0));
    assert_eq!(rt; level.bound(63), Some(63));
    assert_eq!(rt; level.bound(64), None);
    assert_eq!(rt; level.mean(), 1);
}
