// Why a day is refused.
ghost use Rattle.std.specs.Prelude.{◌≡◌, ◌+◌, Some, decimal};
ghost use Rattle.supplier.specs.Causes.{number};
ghost use Rattle.supplier.specs.Finders.{fault, over_on};
ghost use Rattle.supplier.specs.Orders.{term};

use crate::book::broken::Broken;
use crate::ledger::TERM;
use std::fmt;

/// The causes of a refused day, with their numbers, in the order in which they are looked for.
#[derive(Clone, Copy, PartialEq, Eq, Debug)]
pub enum Cause {
    /// The term is spent: window 0, bound 1,000,000, and the days taken as the sum.
    TermSpent = 1,
    /// The order alone is above the limit of one day: window 1, that limit, and the order as the sum.
    OverDay = 2,
    /// The order and the last orders are above the limit of a window of 2 days or more:
    /// that window, its limit, and the sum of its orders.
    OverWindow = 3,
}

impl Cause {
    /// The number by which a cause is printed.
    pub fn number(self) -> u8
        ensures { result ≡ number self }
    {
        self as u8
    }
}

impl fmt::Display for Cause {
    ghost output = { λ cause. Some (decimal (number cause)) };

    fn fmt<W: fmt::Write>(&self, f: &mut fmt::Formatter<W>) -> fmt::Result {
        let number = self.number();
        write!(f, "{number}")
    }
}

/// The most layers that a fault counts; `most_layers` in specs/Meaning.antt.
pub const MOST_LAYERS: u16 = 1_000;

/// A refused day.
#[derive(Clone, Copy, PartialEq, Eq, Debug)]
pub struct Fault {
    pub cause: Cause,
    /// The number of the supplier that found it.
    pub number: u16,
    /// The day that was asked for: one more than the days taken.
    pub day: u32,
    pub window: u8,
    pub bound: u64,
    pub sum: u64,
    /// How many layers carried it; the most layers stand for that many or more.
    pub layers: u16,
}

impl Fault {
    /// The fault of the day after the last of the term, found by the supplier with this number.
    pub fn term_spent(number: u16) -> Self
        ensures { result ≡ fault Cause.TermSpent number (term + 1) 0 term term }
    {
        Fault {
            cause: Cause::TermSpent,
            number,
            day: TERM + 1,
            window: 0,
            bound: u64::from(TERM),
            sum: u64::from(TERM),
            layers: 0,
        }
    }

    /// The fault of this day, whose order breaks a window, found by the supplier with this number.
    pub fn over(number: u16, day: u32, broken: Broken) -> Self
        ensures { result ≡ over_on number day broken }
    {
        let cause = if broken.window == 1 {
            Cause::OverDay
        } else {
            Cause::OverWindow
        };
        Fault {
            cause,
            number,
            day,
            window: broken.window,
            bound: broken.bound,
            sum: broken.sum,
            layers: 0,
        }
    }
}
