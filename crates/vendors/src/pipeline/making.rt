// The question and the making of a pipeline vendor.
ghost use Rattle.std.specs.Prelude.{[], ◌∷◌};
ghost use Rattle.figures.specs.Refusals.{Answered, NoLaw};
ghost use Rattle.vendors.specs.Pipelines.{pipeline_ranges, Made};

use crate::pipeline::PipelineTerms;
use crate::vendor::Vendor;
use figures::{DAYS, Range, Refusal, range_refusal};
use supplier::{NUMBERS, kept_number};

/// A pipeline vendor.
pub type Pipeline = Vendor<PipelineTerms>;

/// The ranges of the number, the lead and the most pieces of a day.
pub const RANGES: [Range; 3] = [
    NUMBERS,
    DAYS,
    Range {
        low: 0,
        high: 10_000_000,
    },
];

// The figures come one by one, as a file's record has them: a struct would be a second name for that record.
impl Vendor<PipelineTerms> {
    /// The refusal of these figures, or none.
    pub fn question(number: u64, lead: u64, max: u64) -> Option<Refusal>
        ensures { Answered pipeline_ranges (number ∷ lead ∷ max ∷ []) NoLaw result }
    {
        range_refusal(&[number, lead, max], &RANGES)
    }

    /// A vendor with these figures. Where the question refuses them, its lead and its most pieces of a day are 0.
    pub fn new(number: u64, lead: u64, max: u64) -> Self
        ensures { Made number lead max result }
    {
        // Two makings side by side: `is_none` and an `if` would say no more.
        let terms = match Pipeline::question(number, lead, max) {
            None => PipelineTerms {
                lead: lead as u8,
                max,
            },
            Some(_) => PipelineTerms { lead: 0, max: 0 },
        };
        Vendor::opened(kept_number(number), terms)
    }
}
