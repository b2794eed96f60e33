// The first window that a next order would break.
ghost use Rattle.std.specs.Prelude.{◌≡◌};
ghost use Rattle.figures.specs.Days.{for_days};
ghost use Rattle.supplier.specs.Books.{orders_of};
ghost use Rattle.supplier.specs.Windows.{first_broken};

use crate::book::Book;
use crate::limits::Limits;

/// A window whose orders are above its limit.
#[derive(Clone, Copy, PartialEq, Eq, Debug)]
pub struct Broken {
    pub window: u8,
    pub bound: u64,
    pub sum: u64,
}

impl Book {
    /// The shortest window that the order q would break against these limits, or none.
    pub fn first_broken(&self, limits: &Limits, q: u64) -> Option<Broken>
        ensures { result ≡ first_broken (for_days limits.now.bounds) (orders_of self.now) q }
    {
        let mut sum = q;
        for (i, bound) in limits.bounds.iter().enumerate() {
            if sum > *bound {
                return Some(Broken {
                    window: (i + 1) as u8,
                    bound: *bound,
                    sum,
                });
            }
            sum += self.order(i);
        }
        None
    }
}
