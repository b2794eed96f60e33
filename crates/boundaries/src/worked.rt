// The worked figures.
use envelope::{Bucket, Envelope, Root, Table, climbing};
use figures::{HORIZON, Refusal};
use supplier::Supplier;
use vendors::Calendar;

// Mondays and Thursdays, two days on the way: the longest wait is three days.
#[test]
fn mask_nine(rt: HostRuntime) {
    let vendor = Calendar::new(1, 9, 2, 100);
    assert_eq!(rt; vendor.quote(), 5);
    assert_eq!(rt; vendor.departures(), 2);
    assert_eq!(rt; vendor.departure(1), Some(1));
    assert_eq!(rt; vendor.departure(2), Some(4));
    assert_eq!(rt; vendor.arrival(5), Some(10));
    assert_eq!(rt; vendor.departure(0), None);
}

#[test]
fn root_of_144(rt: HostRuntime) {
    let root = Root::new(10, 144);
    assert_eq!(rt; root.bound(0), Some(0));
    assert_eq!(rt; root.bound(1), Some(22));
    assert_eq!(rt; root.bound(2), Some(37));
    assert_eq!(rt; root.bound(4), Some(64));
}

// With V(1) 5, V(2) may be 10 and not 11.
#[test]
fn table_of_five(rt: HostRuntime) {
    let mut bounds = [10; HORIZON];
    bounds[0] = 5;
    assert_eq!(rt; Table::question(0, bounds), None);
    bounds[1] = 11;
    assert_eq!(rt; Table::question(0, bounds), Some(Refusal::LawBroken(3)));
}

// A bucket of 8, 10 and 4: its bounds of four days and of one, and its climbing list.
#[test]
fn bucket_of_eight(rt: HostRuntime) {
    let bucket = Bucket::new(8, 10, 4);
    assert_eq!(rt; bucket.bound(4), Some(26));
    assert_eq!(rt; bucket.bound(1), Some(8));
    let orders = climbing(&bucket);
    assert_eq!(rt; orders[0], 8);
    assert_eq!(rt; orders[1], 8);
    assert_eq!(rt; orders[2], 6);
    assert_eq!(rt; orders[3], 4);
}
