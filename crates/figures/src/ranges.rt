// The range of a figure, and the first figure of a list that is outside its own.
ghost use Rattle.std.specs.Prelude.{MatchBool, MatchOption};
ghost use Rattle.figures.specs.Ranges.{Within, AllIn, FirstOut};

use crate::horizon::HORIZON;

/// The figures that pass, from `low` to `high`.
#[derive(Clone, Copy, PartialEq, Eq, Debug)]
pub struct Range {
    pub low: u64,
    pub high: u64,
}

impl Range {
    /// Whether a figure is in the range.
    pub fn holds(self, figure: u64) -> bool
        ensures { MatchBool result (Within self figure) (Within self figure → ⊥) }
    {
        self.low <= figure && figure <= self.high
    }
}

/// The range of days that the horizon reaches.
pub const DAYS: Range = Range {
    low: 0,
    high: HORIZON as u64,
};

/// The place, counted from 1, of the first figure from the left that is outside its range, or none.
/// A figure that has no range passes.
pub fn first_out(figures: &[u64], ranges: &[Range]) -> Option<usize>
    ensures { MatchOption result (AllIn ranges.now figures.now) (λ p. FirstOut ranges.now figures.now p) }
{
    figures
        .iter()
        .zip(ranges)
        .position(|(figure, range)| !range.holds(*figure))
        .map(|i| i + 1)
}
