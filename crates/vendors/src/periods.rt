// Limits that rise by the same amount with each period begun.
ghost use Rattle.std.specs.Prelude.{◌*◌, ◌≤◌};
ghost use Rattle.figures.specs.Days.{horizon, most};
ghost use Rattle.vendors.specs.Periods.{Rises, periods};

use std::array;
use supplier::Limits;

/// The limit of k days is the amount times the periods that k days begin.
pub(crate) fn periodic_limits(period: u64, amount: u64) -> Limits
    requires some { 1 ≤ period }
    requires near { period ≤ horizon }
    requires few { amount * periods period horizon ≤ most }
    ensures { Rises period amount result.bounds }
{
    Limits {
        bounds: array::from_fn(|i| amount * ((i as u64 + period) / period)),
    }
}
