// The bounds of an envelope as a table of limits.
ghost use Rattle.std.specs.Prelude.{MatchBool};
ghost use Rattle.figures.specs.Days.{for_days};
ghost use Rattle.stages.specs.StageMaking.{Copies, Under};

use envelope::Envelope;
use std::array;
use supplier::{Limits, Supplier};

/// The bounds of 1 day to the horizon.
pub(crate) fn copied<E: Envelope>(envelope: &E) -> Limits
    ensures { Copies (E.Envelope.meaning envelope.now).bound result.bounds }
{
    Limits {
        bounds: array::from_fn(|i| envelope.bound((i + 1) as u8).unwrap_or(0)),
    }
}

/// Whether every limit is within the limit of the same days below.
pub(crate) fn under<S: Supplier>(limits: &Limits, below: &S) -> bool
    ensures { S.valid below.now → MatchBool result
        (Under (for_days limits.now.bounds) (S.meaning below.now).service.limit)
        (Under (for_days limits.now.bounds) (S.meaning below.now).service.limit → ⊥) }
{
    limits.bounds.iter().enumerate().all(|(i, bound)| *bound
        <= below.limit((i + 1) as u8).unwrap_or(0))
}
