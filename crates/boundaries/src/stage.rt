// Stages and delays over vendors: their questions at both sides of each bound, and days of a stage.
use delays::Delaying;
use envelope::Bucket;
use figures::Refusal;
use stages::Staging;
use std::test::Fail;
use supplier::Supplier;
use vendors::Pipeline;

// A bucket of 8, 10 and 4 over a quote of 6 with a process time of 1: a quote of 3 needs a base stock of 26.
#[test]
fn stage_questions(rt: HostRuntime) {
    let below = Pipeline::new(1, 6, 8);
    let bucket = Bucket::new(8, 10, 4);
    assert_eq!(rt; Staging::question(&below, 2, 1, 3, 26, &bucket), None);
    assert_eq!(rt;
        Staging::question(&below, 2, 1, 3, 25, &bucket),
        Some(Refusal::LowBase)
    );
    assert_eq!(rt; Staging::question(&below, 2, 1, 7, 0, &bucket), None);
    assert_eq!(rt;
        Staging::question(&below, 2, 1, 8, 26, &bucket),
        Some(Refusal::Misfit)
    );
    assert_eq!(rt; Staging::question(&below, 2, 57, 3, 1_000, &bucket), None);
    assert_eq!(rt;
        Staging::question(&below, 2, 58, 3, 1_000, &bucket),
        Some(Refusal::Misfit)
    );
    assert_eq!(rt;
        Staging::question(&below, 2, 64, 64, 0, &bucket),
        Some(Refusal::OutOfRange(2))
    );
    assert_eq!(rt;
        Staging::question(&below, 2, 1, 64, 0, &bucket),
        Some(Refusal::OutOfRange(3))
    );
    assert_eq!(rt;
        Staging::question(&below, 2, 1, 3, 1_000_000_001, &bucket),
        Some(Refusal::OutOfRange(4))
    );
    let narrow = Pipeline::new(1, 6, 7);
    assert_eq!(rt;
        Staging::question(&narrow, 2, 1, 3, 26, &bucket),
        Some(Refusal::AboveLimit)
    );
}

// The climbing list empties the shelf: 26 less 8, 8, 6 and 4.
#[test]
fn stage_days(rt: HostRuntime) -> Result<(), Fail> {
    let mut stage = Staging::over(Pipeline::new(1, 6, 8), 2, 1, 3, 26, &Bucket::new(8, 10, 4));
    assert_eq!(rt; stage.quote(), 3);
    for (order, held) in [
        (8, 26),
        (8, 26),
        (6, 26),
        (4, 18),
        (4, 10),
        (4, 4),
        (4, 0),
        (4, 4),
    ] {
        assert!(rt; stage.day(order).is_ok());
        let line = stage.line(0).ok_or("no line")?;
        assert_eq!(rt; line.held, held);
    }
    assert_eq!(rt; stage.lines(), 2);
    Ok(())
}

#[test]
fn delay_questions(rt: HostRuntime) {
    let below = Pipeline::new(1, 60, 8);
    assert_eq!(rt; Delaying::question(&below, 2, 3), None);
    assert_eq!(rt; Delaying::question(&below, 2, 4), Some(Refusal::Misfit));
    assert_eq!(rt;
        Delaying::question(&below, 2, 64),
        Some(Refusal::OutOfRange(2))
    );
    let mut started = Pipeline::new(1, 1, 8);
    assert!(rt; started.day(8).is_ok());
    assert_eq!(rt; Delaying::question(&started, 2, 3), Some(Refusal::Started));
}

#[test]
fn delay_days(rt: HostRuntime) -> Result<(), Fail> {
    let mut delay = Delaying::over(Pipeline::new(1, 1, 8), 2, 2);
    for (order, delivery, held) in [(8, 0, 0), (7, 0, 8), (6, 0, 15), (5, 8, 13)] {
        assert!(rt; delay.day(order) == Ok(delivery));
        let line = delay.line(0).ok_or("no line")?;
        assert_eq!(rt; line.held, held);
    }
    assert_eq!(rt; delay.trial(9).ok_or("taken")?.layers, 1);
    Ok(())
}

// An idle layer takes orders of 0, and calls nothing below.
#[test]
fn idle_layer(rt: HostRuntime) -> Result<(), Fail> {
    let mut idle = Delaying::over(Pipeline::new(1, 60, 8), 2, 4);
    assert_eq!(rt; idle.quote(), 0);
    assert_eq!(rt; idle.limit(63), Some(0));
    assert_eq!(rt; idle.lines(), 1);
    assert!(rt; idle.day(0).is_ok());
    assert_eq!(rt; idle.days(), 1);
    assert_eq!(rt; idle.trial(1).ok_or("taken")?.layers, 0);
    Ok(())
}
