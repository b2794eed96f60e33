// The kinds of record: their marks, and the ranges of their fields.
ghost use Rattle.std.specs.Prelude.{◌≡◌, MatchOption};
ghost use Rattle.records.specs.Kinds.{ranges_of, TakenApart, LacksMark};

use assemblies::ASSEMBLY_RANGES;
use delays::DELAY_RANGES;
use envelope::{BURSTS, DAILY, SPREADS};
use figures::Range;
use stages::{STOCKS, TIMES};
use supplier::NUMBERS;
use vendors::{CALENDAR_RANGES, PIPELINE_RANGES};

/// A kind of record; its mark stands at the start of its line.
#[derive(Clone, Copy, PartialEq, Eq, Debug)]
pub enum RecordKind {
    /// `VC number mask travel weekly`: a calendar vendor.
    Calendar,
    /// `DL number d`: a delay.
    Delay,
    /// `VP number lead max`: a pipeline vendor.
    Pipeline,
    /// `SR number T S B mean w`: a stage with a root envelope.
    RootStage,
    /// `AS number a b`: an assembly.
    Assembly,
    /// `SB number T S B peak burst mean`: a stage with a bucket envelope.
    BucketStage,
    /// `DY q`: a day with its order.
    Day,
}

/// The ranges of a stage's figures and of those of its root envelope.
const ROOT_STAGE_RANGES: [Range; 6] = [NUMBERS, TIMES, TIMES, STOCKS, DAILY, SPREADS];

/// The ranges of a stage's figures and of those of its bucket envelope.
const BUCKET_STAGE_RANGES: [Range; 7] = [NUMBERS, TIMES, TIMES, STOCKS, DAILY, BURSTS, DAILY];

/// An order has no range: every number is taken to the pile.
const DAY_RANGES: [Range; 1] = [Range {
    low: 0,
    high: 9_999_999_999_999,
}];

impl RecordKind {
    /// The ranges of the fields, from the left.
    pub fn ranges(self) -> &'static [Range]
        ensures { result.now ≡ ranges_of self }
    {
        match self {
            RecordKind::Calendar => &CALENDAR_RANGES,
            RecordKind::Delay => &DELAY_RANGES,
            RecordKind::Pipeline => &PIPELINE_RANGES,
            RecordKind::RootStage => &ROOT_STAGE_RANGES,
            RecordKind::Assembly => &ASSEMBLY_RANGES,
            RecordKind::BucketStage => &BUCKET_STAGE_RANGES,
            RecordKind::Day => &DAY_RANGES,
        }
    }

    /// The text after this kind's mark and a space, where the line begins with them.
    pub fn text_of(self, line: &[u8]) -> Option<&[u8]>
        ensures { MatchOption result (LacksMark self line.now) (λ text. TakenApart self line.now text.now) }
    {
        // A slice pattern for each kind, by the project's rule for lines.
        match (self, line) {
            (RecordKind::Calendar, [b'V', b'C', b' ', text @ ..])
            | (RecordKind::Delay, [b'D', b'L', b' ', text @ ..])
            | (RecordKind::Pipeline, [b'V', b'P', b' ', text @ ..])
            | (RecordKind::RootStage, [b'S', b'R', b' ', text @ ..])
            | (RecordKind::Assembly, [b'A', b'S', b' ', text @ ..])
            | (RecordKind::BucketStage, [b'S', b'B', b' ', text @ ..])
            | (RecordKind::Day, [b'D', b'Y', b' ', text @ ..]) => Some(text),
            _ => None,
        }
    }
}
