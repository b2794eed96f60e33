// The rows of a table of bounds, and the laws that one can break.
ghost use Rattle.std.specs.Prelude.{◌≡◌, ◌≤◌, MatchBool, MatchOption};
ghost use Rattle.figures.specs.Days.{horizon, for_days};
ghost use Rattle.figures.specs.Ranges.{Within};
ghost use Rattle.envelope.specs.Curves.{daily};
ghost use Rattle.envelope.specs.Tables.{Torn, Breaks, Bounded, Unbroken, FirstBroken};

use figures::HORIZON;

/// The bound of `k` days, 0 of none. A type for days within the horizon would have to be opened at every place.
pub(crate) fn row(bounds: &[u64; HORIZON], k: usize) -> u64
    requires { k ≤ horizon }
    ensures { result ≡ for_days bounds.now k }
{
    if k == 0 { 0 } else { bounds[k - 1] }
}

/// A mean and bounds that are in their ranges.
#[derive(Clone, Copy)]
pub(crate) struct Rows<'a> {
    pub mean: u64,
    pub bounds: &'a [u64; HORIZON],
    ghost daily: { Within daily mean },
    ghost bounded: { Bounded bounds.now },
}

impl Rows<'_> {
    /// Whether the bound of `k` days is above the bounds of two parts of them.
    fn torn(&self, k: usize) -> bool
        requires { k ≤ horizon }
        ensures { MatchBool result (Torn self.now.bounds.now k) (Torn self.now.bounds.now k → ⊥) }
    {
        let whole = row(self.bounds, k);
        (1..k).any(|i| row(self.bounds, i) + row(self.bounds, k - i) < whole)
    }

    /// Whether the bound of `k` days breaks a law.
    fn breaks(&self, k: usize) -> bool
        requires { (1 ≤ k) × (k ≤ horizon) }
        ensures { MatchBool result (Breaks self.now.mean self.now.bounds.now k) (Breaks self.now.mean self.now.bounds.now k → ⊥) }
    {
        let bound = row(self.bounds, k);
        // `as`: there is no `u64::from` of a `usize`.
        bound < row(self.bounds, k - 1) || bound < k as u64 * self.mean || self.torn(k)
    }

    /// The least number of days whose bound breaks a law, or none.
    pub(crate) fn first_broken(&self) -> Option<usize>
        ensures { MatchOption result (Unbroken self.now.mean self.now.bounds.now horizon) (λ k. FirstBroken self.now.mean self.now.bounds.now k) }
    {
        (1..=HORIZON).find(|&k| self.breaks(k))
    }
}
