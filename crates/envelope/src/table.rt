// The table: a bound given for every number of days up to the horizon.
ghost use Rattle.std.specs.Prelude.{◌≡◌, ℕ, ◌∷◌, length, replicate};
ghost use Rattle.figures.specs.Days.{horizon};
ghost use Rattle.figures.specs.Ranges.{AllIn};
ghost use Rattle.figures.specs.Refusals.{Answered};
ghost use Rattle.envelope.specs.Tables.{table_ranges, BrokenAt, TablePasses, table_curve};
ghost use Rattle.envelope.specs.TablesLemmas.{no_days, table_lawful};

use crate::envelope::{DAILY, Envelope};
use crate::rows::{Rows, row};
use figures::{HORIZON, MOST_PIECES, Range, Refusal, first_out, within_horizon};

/// The range of each bound.
const BOUNDS: [Range; HORIZON] = [Range {
    low: 0,
    high: MOST_PIECES,
}; HORIZON];

/// A mean, and the bounds of 1 day to the horizon.
#[derive(Clone, Copy, Debug)]
pub struct Table {
    mean: u64,
    bounds: [u64; HORIZON],
    ghost wide: { length bounds ≡ horizon },
    ghost within: { AllIn table_ranges (mean ∷ bounds) },
    ghost unbroken: { (p : ℕ) → BrokenAt mean bounds p → ⊥ },
}

// The figures come one by one, as a file's record has them: a struct would be a second name for that record.
impl Table {
    /// The refusal that these figures get, or none.
    pub fn question(mean: u64, bounds: [u64; HORIZON]) -> Option<Refusal>
        ensures { Answered table_ranges (mean ∷ bounds) (BrokenAt mean bounds) result }
    {
        // One test after the other, since the rows stand on what each shows.
        if !DAILY.holds(mean) {
            return Some(Refusal::OutOfRange(1));
        }
        if let Some(place) = first_out(&bounds, &BOUNDS) {
            return Some(Refusal::OutOfRange(place + 1));
        }
        let rows = Rows {
            mean,
            bounds: &bounds,
        };
        rows.first_broken().map(|k| Refusal::LawBroken(k + 1))
    }

    /// The table of these figures; where the question refuses them, all are 0.
    pub fn new(mean: u64, bounds: [u64; HORIZON]) -> Self
        ensures kept { TablePasses mean bounds → (result.mean ≡ mean) × (result.bounds ≡ bounds) }
        ensures refused { (TablePasses mean bounds → ⊥) → (result.mean ≡ 0) × (result.bounds ≡ replicate horizon 0) }
    {
        if Table::question(mean, bounds).is_some() {
            return Table {
                mean: 0,
                bounds: [0; HORIZON],
            };
        }
        Table { mean, bounds }
    }
}

impl Envelope for Table {
    ghost meaning = { λ t. table_curve t.mean t.bounds };

    ghost lawful = { λ e. table_lawful e.mean e.bounds e.wide e.within (no_days e.mean e.bounds e.unbroken) };

    fn bound(&self, k: u8) -> Option<u64> {
        let days = within_horizon(k)?;
        Some(row(&self.bounds, days))
    }

    fn mean(&self) -> u64 {
        self.mean
    }
}
