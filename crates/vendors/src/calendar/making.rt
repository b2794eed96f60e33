// The question and the making of a calendar vendor.
ghost use Rattle.std.specs.Prelude.{[], ◌∷◌};
ghost use Rattle.figures.specs.Refusals.{Answered, NoLaw};
ghost use Rattle.vendors.specs.Calendars.{calendar_ranges, Made};

use crate::calendar::CalendarTerms;
use crate::mask::Mask;
use crate::vendor::Vendor;
use figures::{Range, Refusal, range_refusal};
use supplier::{NUMBERS, kept_number};

/// A calendar vendor.
pub type Calendar = Vendor<CalendarTerms>;

/// The ranges of the number, the mask, the travel and the weekly bound.
pub const RANGES: [Range; 4] = [
    NUMBERS,
    Range { low: 1, high: 127 },
    Range { low: 0, high: 49 },
    Range {
        low: 0,
        high: 70_000_000,
    },
];

// The figures come one by one, as a file's record has them: a struct would be a second name for that record.
impl Vendor<CalendarTerms> {
    /// The refusal of these figures, or none.
    pub fn question(number: u64, mask: u64, travel: u64, weekly: u64) -> Option<Refusal>
        ensures { Answered calendar_ranges (number ∷ mask ∷ travel ∷ weekly ∷ []) NoLaw result }
    {
        range_refusal(&[number, mask, travel, weekly], &RANGES)
    }

    /// A vendor with these figures. Where the question refuses them, it ships every day, and its travel and its weekly bound are 0.
    pub fn new(number: u64, mask: u64, travel: u64, weekly: u64) -> Self
        ensures { Made number mask travel weekly result }
    {
        // Two makings side by side: `is_none` and an `if` would say no more.
        match Calendar::question(number, mask, travel, weekly) {
            None => Vendor::opened(
                kept_number(number),
                CalendarTerms {
                    mask: Mask { bits: mask as u8 },
                    travel: travel as u8,
                    weekly,
                },
            ),
            Some(_) => Vendor::opened(
                kept_number(number),
                CalendarTerms {
                    mask: Mask { bits: 127 },
                    travel: 0,
                    weekly: 0,
                },
            ),
        }
    }
}
