// Assemblies: their questions, and the days of kits whose parts come at different times.
use assemblies::Assembling;
use delays::Delaying;
use envelope::{Bucket, Root, climbing};
use figures::Refusal;
use stages::Staging;
use std::test::Fail;
use supplier::{Cause, Supplier};
use vendors::{Calendar, Pipeline};

#[test]
fn assembly_questions(rt: HostRuntime) {
    let left = Pipeline::new(1, 2, 8);
    let mut right = Pipeline::new(2, 1, 9);
    assert_eq!(rt; Assembling::question(&left, &right, 3, 1, 100), None);
    assert_eq!(rt;
        Assembling::question(&left, &right, 3, 0, 101),
        Some(Refusal::OutOfRange(2))
    );
    assert_eq!(rt;
        Assembling::question(&left, &right, 3, 101, 1),
        Some(Refusal::OutOfRange(2))
    );
    assert_eq!(rt;
        Assembling::question(&left, &right, 3, 100, 0),
        Some(Refusal::OutOfRange(3))
    );
    assert!(rt; right.day(1).is_ok());
    assert_eq!(rt;
        Assembling::question(&left, &right, 3, 1, 1),
        Some(Refusal::Started)
    );
}

// Two of the left and three of the right: the parts of the right come a day earlier, and wait.
#[test]
fn assembly_days(rt: HostRuntime) -> Result<(), Fail> {
    let mut kits = Assembling::over(Pipeline::new(1, 2, 8), Pipeline::new(2, 1, 9), 3, 2, 3);
    assert_eq!(rt; kits.quote(), 2);
    assert_eq!(rt; kits.limit(1), Some(3));
    assert_eq!(rt; kits.limit(64), None);
    for (order, delivery, held) in [(3, 0, 0), (2, 0, 9), (1, 3, 6), (0, 2, 3)] {
        assert!(rt; kits.day(order) == Ok(delivery));
        let line = kits.line(0).ok_or("no line")?;
        assert_eq!(rt; line.held, held);
    }
    assert_eq!(rt; kits.lines(), 3);
    let fault = kits.trial(4).ok_or("taken")?;
    assert_eq!(rt; fault.cause, Cause::OverDay);
    assert_eq!(rt; fault.sum, 4);
    Ok(())
}

// A bucket stage over kits of a delayed calendar vendor and of a root stage over a pipeline vendor.
#[test]
fn climbing_pile(rt: HostRuntime) -> Result<(), Fail> {
    let left = Delaying::over(Calendar::new(1, 9, 2, 100), 2, 1);
    let right = Staging::over(Pipeline::new(3, 4, 60), 4, 2, 2, 64, &Root::new(10, 144));
    let kits = Assembling::over(left, right, 5, 1, 2);
    let bucket = Bucket::new(8, 10, 4);
    let mut pile = Staging::over(kits, 6, 1, 3, 26, &bucket);
    assert_eq!(rt; pile.lines(), 6);
    let orders = climbing(&bucket);
    for (held, order) in [26, 26, 26, 18, 10, 4, 0].iter().zip(&orders) {
        assert!(rt; pile.day(*order).is_ok());
        let line = pile.line(0).ok_or("no line")?;
        assert_eq!(rt; line.held, *held);
    }
    assert_eq!(rt; pile.trial(9).ok_or("taken")?.layers, 0);
    Ok(())
}
