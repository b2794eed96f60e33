// A book is opened, takes an order in place, and tells its sums and the order due.
ghost use Rattle.std.specs.Prelude.{◌≡◌, ◌<◌, ◌≤◌, if◌then◌else◌, nat_le, slice_index};
ghost use Rattle.figures.specs.Days.{horizon, most, near, window};
ghost use Rattle.supplier.specs.Orders.{entered, due, no_orders};
ghost use Rattle.supplier.specs.Books.{orders_of, BeforeNewest};

use crate::book::Book;
use figures::{HORIZON, MOST_PIECES, within_horizon};

/// The place before the newest order, round to the end of the ring.
fn before(newest: usize) -> usize
    requires { newest < horizon }
    ensures place { BeforeNewest horizon newest result }
    ensures inside { result < horizon }
{
    if newest == 0 { HORIZON - 1 } else { newest - 1 }
}

impl Book {
    /// A book with no day taken.
    pub fn new() -> Self
        ensures { orders_of result ≡ no_orders }
    {
        Book {
            ring: [0; HORIZON],
            newest: 0,
        }
    }

    /// Takes an order: it becomes the newest, and the oldest is forgotten.
    /// An order above the most pieces is not taken, and changes nothing.
    /// A yes or no with no value beside it: a `Result` of nothing and nothing would say no more.
    pub fn take(&mut self, q: u64) -> bool
        ensures answer { result ≡ nat_le q most }
        ensures after { orders_of self.new ≡ (if result then entered q (orders_of self.old) else orders_of self.old) }
    {
        if q > MOST_PIECES {
            return false;
        }
        let place = before(self.newest);
        self.ring[place] = q;
        self.newest = place;
        true
    }

    /// The order of `back` days before the newest; 0 where the book reaches no further back.
    pub(crate) fn order(&self, back: usize) -> u64
        ensures order { result ≡ slice_index (orders_of self.now) back }
        ensures small { result ≤ most }
    {
        if back >= HORIZON {
            return 0;
        }
        let place = self.newest + back;
        if place < HORIZON {
            self.ring[place]
        } else {
            self.ring[place - HORIZON]
        }
    }

    /// The order of the last day taken; 0 before day 1.
    pub fn last(&self) -> u64
        ensures { result ≡ slice_index (orders_of self.now) 0 }
    {
        self.ring[self.newest]
    }

    /// The order due on the day that takes q, at a quote of so many days; absent beyond the horizon.
    pub fn due(&self, quote: u8, q: u64) -> Option<u64>
        ensures { result ≡ near quote (due quote (orders_of self.now) q) }
    {
        let days = within_horizon(quote)?;
        if days == 0 {
            return Some(q);
        }
        Some(self.order(days - 1))
    }

    /// The orders of the last k days together; absent beyond the horizon.
    pub fn sum(&self, k: u8) -> Option<u64>
        ensures { result ≡ near k (window k (orders_of self.now)) }
    {
        let days = within_horizon(k)?;
        Some((0..days).map(|back| self.order(back)).sum())
    }
}
