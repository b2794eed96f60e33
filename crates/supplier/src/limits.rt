// The limits of a supplier that finds its faults itself, as a table.
ghost use Rattle.std.specs.Prelude.{◌≡◌, length};
ghost use Rattle.figures.specs.Days.{for_days, horizon};
ghost use Rattle.supplier.specs.Limits.{High, Grows, told_limit};

use figures::HORIZON;

/// L(1), L(2) and so on: limits that never fall, each at most the most pieces.
#[derive(Clone, Copy)]
pub struct Limits {
    pub bounds: [u64; HORIZON],
    ghost wide: { length bounds ≡ horizon },
    ghost high: { High bounds },
    ghost grows: { Grows bounds },
}

impl Limits {
    /// The limit of k days; absent for no days and for more than the horizon.
    pub fn told(&self, k: u8) -> Option<u64>
        ensures { result ≡ told_limit (for_days self.now.bounds) k }
    {
        let before = usize::from(k).checked_sub(1)?;
        self.bounds.get(before).copied()
    }
}
