// The least root of a number, and the root envelope: it grows by the mean and by a root.
ghost use Rattle.std.specs.Prelude.{◌≡◌, [], ◌∷◌};
ghost use Rattle.figures.specs.Ranges.{AllIn};
ghost use Rattle.figures.specs.Refusals.{Answered, NoLaw};
ghost use Rattle.envelope.specs.Roots.{LeastRoot, root_up, root_ranges, RootPasses, root_curve};
ghost use Rattle.envelope.specs.RootsLemmas.{root_lawful};

use crate::envelope::{DAILY, Envelope};
use figures::{Range, Refusal, range_refusal, within_horizon};

/// The range of `w`.
pub const SPREADS: Range = Range {
    low: 0,
    high: 1_000_000_000_000,
};

/// The ranges of the mean and of `w`.
const RANGES: [Range; 2] = [DAILY, SPREADS];

/// The least number whose square reaches `n`: one above the root of `n - 1`, rounded down.
pub fn least_root(n: u64) -> u64
    ensures rule { LeastRoot n result }
    ensures value { result ≡ root_up n }
{
    if n == 0 { 0 } else { (n - 1).isqrt() + 1 }
}

/// `k` days ask for at most `k` times the mean and the least root of `k` times `w`.
#[derive(Clone, Copy, Debug)]
pub struct Root {
    mean: u64,
    w: u64,
    ghost within: { AllIn root_ranges (mean ∷ w ∷ []) },
}

// The figures come one by one, as a file's record has them: a struct would be a second name for that record.
impl Root {
    /// The refusal that these figures get, or none.
    pub fn question(mean: u64, w: u64) -> Option<Refusal>
        ensures { Answered root_ranges (mean ∷ w ∷ []) NoLaw result }
    {
        range_refusal(&[mean, w], &RANGES)
    }

    /// The envelope of these figures; where the question refuses them, all are 0.
    pub fn new(mean: u64, w: u64) -> Self
        ensures kept { RootPasses mean w → (result.mean ≡ mean) × (result.w ≡ w) }
        ensures refused { (RootPasses mean w → ⊥) → (result.mean ≡ 0) × (result.w ≡ 0) }
    {
        if Root::question(mean, w).is_some() {
            return Root { mean: 0, w: 0 };
        }
        Root { mean, w }
    }
}

impl Envelope for Root {
    ghost meaning = { λ e. root_curve e.mean e.w };

    ghost lawful = { λ e. root_lawful e.mean e.w e.within };

    fn bound(&self, k: u8) -> Option<u64> {
        // `as`: there is no `u64::from` of a `usize`.
        let days = within_horizon(k)? as u64;
        Some(days * self.mean + least_root(days * self.w))
    }

    fn mean(&self) -> u64 {
        self.mean
    }
}
