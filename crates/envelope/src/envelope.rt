// What every envelope tells.
ghost use Rattle.std.specs.Prelude.{◌≡◌};
ghost use Rattle.envelope.specs.Curves.{Curve, Lawful, told};

use figures::Range;

/// The range of what a day asks for, in the mean or at its peak; `daily` in specs/Curves.antt.
pub const DAILY: Range = Range {
    low: 0,
    high: 10_000_000,
};

/// A bound on the demand of every stretch of days up to the horizon.
pub trait Envelope {
    ghost meaning: { Self → Curve };

    /// The bound of `k` days in a row; none past the horizon.
    fn bound(&self, k: u8) -> Option<u64>
        ensures { result ≡ told (meaning self.now) k };

    /// The mean of a day.
    fn mean(&self) -> u64
        ensures { result ≡ (meaning self.now).mean };

    ghost lawful: { (e : Self) → Lawful (meaning e) };
}
