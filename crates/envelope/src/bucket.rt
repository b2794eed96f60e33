// The bucket: a peak for each day, and a burst above the mean.
ghost use Rattle.std.specs.Prelude.{◌≡◌, ℕ, [], ◌∷◌};
ghost use Rattle.figures.specs.Ranges.{AllIn};
ghost use Rattle.figures.specs.Refusals.{Answered};
ghost use Rattle.envelope.specs.Buckets.{bucket_ranges, BelowMean, BucketPasses, bucket_curve};
ghost use Rattle.envelope.specs.BucketsLemmas.{fine, bucket_lawful};

use crate::envelope::{DAILY, Envelope};
use figures::{Range, Refusal, first_out, within_horizon};

/// The range of the burst.
pub const BURSTS: Range = Range {
    low: 0,
    high: 50_000_000,
};

/// The ranges of peak, burst and mean.
const RANGES: [Range; 3] = [DAILY, BURSTS, DAILY];

/// At most `peak` pieces a day, and at most `burst` above `mean` pieces a day.
#[derive(Clone, Copy, Debug)]
pub struct Bucket {
    peak: u64,
    burst: u64,
    mean: u64,
    ghost within: { AllIn bucket_ranges (peak ∷ burst ∷ mean ∷ []) },
    ghost unbroken: { (p : ℕ) → BelowMean peak mean p → ⊥ },
}

// The figures come one by one, as a file's record has them: a struct would be a second name for that record.
impl Bucket {
    /// The refusal that these figures get, or none.
    pub fn question(peak: u64, burst: u64, mean: u64) -> Option<Refusal>
        ensures { Answered bucket_ranges (peak ∷ burst ∷ mean ∷ []) (BelowMean peak mean) result }
    {
        // A chain by `or_else` is no plainer, and its proof is not found.
        if let Some(place) = first_out(&[peak, burst, mean], &RANGES) {
            return Some(Refusal::OutOfRange(place));
        }
        if peak < mean {
            return Some(Refusal::LawBroken(1));
        }
        None
    }

    /// The bucket of these figures; where the question refuses them, all are 0.
    pub fn new(peak: u64, burst: u64, mean: u64) -> Self
        ensures kept { BucketPasses peak burst mean → (result.peak ≡ peak) × (result.burst ≡ burst) × (result.mean ≡ mean) }
        ensures refused { (BucketPasses peak burst mean → ⊥) → (result.peak ≡ 0) × (result.burst ≡ 0) × (result.mean ≡ 0) }
    {
        if Bucket::question(peak, burst, mean).is_some() {
            return Bucket {
                peak: 0,
                burst: 0,
                mean: 0,
            };
        }
        Bucket { peak, burst, mean }
    }
}

impl Envelope for Bucket {
    ghost meaning = { λ b. bucket_curve b.peak b.burst b.mean };

    ghost lawful = { λ e. bucket_lawful e.peak e.burst e.mean (fine e.peak e.burst e.mean e.within e.unbroken) };

    fn bound(&self, k: u8) -> Option<u64> {
        // `as`: there is no `u64::from` of a `usize`.
        let days = within_horizon(k)? as u64;
        Some((days * self.peak).min(self.burst + days * self.mean))
    }

    fn mean(&self) -> u64 {
        self.mean
    }
}
