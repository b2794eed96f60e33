// The terms of a calendar vendor. Its departures, and its question and making, stand in calendar/.
ghost use Rattle.std.specs.Prelude.{◌+◌, ◌≤◌};
ghost use Rattle.supplier.specs.declared.line.Kind.TheVariants as kind;
ghost use Rattle.vendors.specs.Departures.{longest};
ghost use Rattle.vendors.specs.Periods.{weekly, most_travel, most_weekly};

use crate::mask::{Mask, WEEK};
use crate::periods::periodic_limits;
use crate::terms::Terms;
use supplier::{Kind, Limits};

pub mod departing;
pub mod making;

/// Orders leave on the departure days of a weekly mask, and at most `weekly` pieces are taken for each week that a window begins.
#[derive(Clone, Copy)]
pub struct CalendarTerms {
    mask: Mask,
    travel: u8,
    weekly: u64,
    ghost near: { travel ≤ most_travel },
    ghost few: { weekly ≤ most_weekly },
}

impl Terms for CalendarTerms {
    ghost kind = { λ _. kind.Calendar };

    ghost quote = { λ t. t.travel + longest t.mask.bits };

    ghost limit = { λ t. weekly t.weekly };

    fn kind(&self) -> Kind {
        Kind::Calendar
    }

    fn quote(&self) -> u8 {
        self.travel + self.mask.longest_wait()
    }

    fn limits(&self) -> Limits {
        periodic_limits(u64::from(WEEK), self.weekly)
    }
}
