// The book's edges: the largest order, the longest quote and window, and the roots of the largest numbers.
use envelope::least_root;
use figures::HORIZON;
use std::test::Fail;
use supplier::{Book, Broken, Limits};

#[test]
fn largest_order(rt: HostRuntime) {
    let mut book = Book::new();
    assert_eq!(rt; book.take(1_000_000_000), true);
    assert_eq!(rt; book.take(1_000_000_001), false);
    assert_eq!(rt; book.sum(1), Some(1_000_000_000));
    assert_eq!(rt; book.sum(63), Some(1_000_000_000));
}

#[test]
fn longest_window(rt: HostRuntime) {
    let mut book = Book::new();
    for _ in 0..62 {
        assert_eq!(rt; book.take(1), true);
    }
    assert_eq!(rt; book.take(5), true);
    assert_eq!(rt; book.sum(0), Some(0));
    assert_eq!(rt; book.sum(62), Some(66));
    assert_eq!(rt; book.sum(63), Some(67));
    assert_eq!(rt; book.sum(64), None);
    assert_eq!(rt; book.due(0, 9), Some(9));
    assert_eq!(rt; book.due(1, 9), Some(5));
    assert_eq!(rt; book.due(63, 9), Some(1));
    assert_eq!(rt; book.due(64, 9), None);
}

// With the same limit for every window, only the window of 63 days reaches the first order.
#[test]
fn last_window_broken(rt: HostRuntime) -> Result<(), Fail> {
    let mut book = Book::new();
    assert_eq!(rt; book.take(7), true);
    for _ in 0..61 {
        assert_eq!(rt; book.take(0), true);
    }
    let limits = Limits {
        bounds: [10; HORIZON],
    };
    assert_eq!(rt; book.first_broken(&limits, 3), None);
    let broken = Broken {
        window: 63,
        bound: 10,
        sum: 11,
    };
    assert_eq!(rt; book.first_broken(&limits, 4), Some(broken));
    assert_eq!(rt; book.take(0), true);
    assert_eq!(rt; book.first_broken(&limits, 4), None);
    Ok(())
}

#[test]
fn largest_roots(rt: HostRuntime) {
    assert_eq!(rt; least_root(0), 0);
    assert_eq!(rt; least_root(1), 1);
    assert_eq!(rt; least_root(2), 2);
    assert_eq!(rt; least_root(18_446_744_065_119_617_025), 4_294_967_295);
    assert_eq!(rt; least_root(18_446_744_065_119_617_026), 4_294_967_296);
    assert_eq!(rt; least_root(u64::MAX), 4_294_967_296);
}
