// A question that asks for the ranges of figures and for no law beyond them.
ghost use Rattle.figures.specs.Refusals.{Answered, NoLaw};

use crate::ranges::{Range, first_out};
use crate::refusals::Refusal;

/// The refusal of figures whose only rule is their ranges, or none.
pub fn range_refusal(figures: &[u64], ranges: &[Range]) -> Option<Refusal>
    ensures { Answered ranges.now figures.now NoLaw result }
{
    first_out(figures, ranges).map(Refusal::OutOfRange)
}
