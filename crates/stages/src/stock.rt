// The own figures of a stage.
ghost use Rattle.std.specs.Prelude.{◌≤◌};
ghost use Rattle.figures.specs.Days.{horizon, most, for_days};
ghost use Rattle.figures.specs.Joins.{Joins};

use supplier::{Book, Ledger};

pub mod restocking;

/// A stage's orders and limits, its times, its base stock and its shelf, and what it works on.
#[derive(Drop)]
pub struct Stock {
    pub ledger: Ledger,
    pub process: u8,
    pub quote: u8,
    pub base: u64,
    pub shelf: u64,
    pub works: Book,
    pub delivered: u64,
    ghost brief: { process ≤ horizon },
    ghost near: { quote ≤ horizon },
    ghost small: { base ≤ most },
    ghost joins: { Joins (for_days ledger.limits.bounds) },
}
