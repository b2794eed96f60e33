// When a calendar vendor ships.
ghost use Rattle.std.specs.Prelude.{◌≡◌, ◌+◌, ◌<◌, ◌≤◌, MatchOption};
ghost use Rattle.vendors.specs.Calendars.{Ships};
ghost use Rattle.vendors.specs.Departures.{week, departures, Leaves};

use crate::calendar::CalendarTerms;
use crate::vendor::Vendor;

impl Vendor<CalendarTerms> {
    /// The departures in a week.
    pub fn departures(&self) -> u32
        ensures { result ≡ departures self.now.terms.mask.bits }
    {
        self.terms.mask.bits.count_ones()
    }

    /// The day on which an order of this day leaves; absent for day 0, since days run from 1.
    pub fn departure(&self, day: u32) -> Option<u64>
        ensures { MatchOption result (day ≡ 0) (λ u. (1 ≤ day) × Leaves self.now.terms.mask.bits day u × (u < day + week)) }
    {
        let before = day.checked_sub(1)?;
        let wait = self.terms.mask.wait(before);
        Some(u64::from(day) + u64::from(wait))
    }

    /// The day on which an order of this day arrives: by its quoted day. Absent for day 0.
    pub fn arrival(&self, day: u32) -> Option<u64>
        ensures { MatchOption result (day ≡ 0) (λ a. (1 ≤ day) × Ships self.now day a) }
    {
        let leaves = self.departure(day)?;
        Some(leaves + u64::from(self.terms.travel))
    }
}
