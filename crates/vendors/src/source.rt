// What every vendor is inside: a ledger, a quote and the last delivery. Its methods stand in source/.
ghost use Rattle.std.specs.Prelude.{◌≤◌};
ghost use Rattle.figures.specs.Days.{horizon};

use supplier::Ledger;

pub mod serving;

/// Delivers each order exactly `quote` days after the day that took it.
#[derive(Drop)]
pub struct Source {
    pub ledger: Ledger,
    pub quote: u8,
    pub delivered: u64,
    ghost near: { quote ≤ horizon },
}
