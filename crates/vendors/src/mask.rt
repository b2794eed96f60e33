// A weekly mask of departure days, and how long an order waits for one.
ghost use Rattle.std.specs.Prelude.{◌≡◌, ◌%◌, ◌<◌, ◌≤◌};
ghost use Rattle.vendors.specs.Departures.{week, wait, longest};

/// The days of a week; `week` in specs/Departures.antt.
pub(crate) const WEEK: u32 = 7;

/// The departure days of a week: a bit for each, the first day lowest, and at least one of them.
#[derive(Clone, Copy)]
pub struct Mask {
    pub(crate) bits: u8,
    ghost some: { 1 ≤ bits },
    ghost days: { bits ≤ 127 },
}

impl Mask {
    /// The days that an order waits, so many days after a week began: the zeros below the lowest bit of the mask turned to that day.
    pub(crate) fn wait(&self, day: u32) -> u8
        ensures wait { result ≡ wait self.now.bits (day % week) }
        ensures short { result < week }
    {
        let mask = u32::from(self.bits);
        let weekday = day % WEEK;
        let turned = ((mask >> weekday) | (mask << (WEEK - weekday))) & 127;
        turned.trailing_zeros() as u8
    }

    /// The longest wait of any day of the week.
    pub(crate) fn longest_wait(&self) -> u8
        ensures wait { result ≡ longest self.now.bits }
        ensures short { result < week }
    {
        (0..WEEK).map(|day| self.wait(day)).max().unwrap_or(0)
    }
}
