// The question and the making of a delay.
ghost use Rattle.std.specs.Prelude.{◌≡◌, ◌≤◌, [], ◌∷◌, IfNone, IfSome};
ghost use Rattle.figures.specs.Days.{horizon};
ghost use Rattle.figures.specs.Ranges.{AllIn};
ghost use Rattle.supplier.specs.Numbers.{named};
ghost use Rattle.layers.specs.Makings.{Given, Keeps};
ghost use Rattle.layers.specs.Questions.{Barred};
ghost use Rattle.delays.specs.DelayMaking.{delay_ranges, DelayAsked, DelayPasses, DelayNew, Fresh};

use crate::delay::Delaying;
use crate::transit::Transit;
use figures::{DAYS, HORIZON, Range, Refusal, range_refusal};
use layers::Layer;
use supplier::{Book, Kind, NUMBERS, Supplier, kept_number};

/// A delay over a supplier, as its making gives it.
pub type Delay<S> = Layer<Delaying<S>, S>;

/// The ranges of the number and the days of a delay.
pub const RANGES: [Range; 2] = [NUMBERS, DAYS];

/// The figures of a delay over a supplier that has taken no day.
fn fresh(number: u16, delay: u8) -> Transit
    requires { delay ≤ horizon }
    ensures { Fresh number delay result }
{
    Transit {
        number,
        delay,
        received: Book::new(),
        ordered: 0,
        delivered: 0,
    }
}

// The figures come one by one, as a file's record has them: a struct would be a second name for that record.
impl<S: Supplier> Delaying<S> {
    /// The refusal of a delay of so many days over this supplier, or none.
    pub fn question(below: &S, number: u64, delay: u64) -> Option<Refusal>
        ensures ranged { IfNone result (AllIn delay_ranges (number ∷ delay ∷ [])) }
        ensures barred { IfSome result (Barred delay_ranges (number ∷ delay ∷ [])) }
        ensures asked { S.valid below.now → DelayAsked (S.meaning below.now) number delay result }
    {
        // One test after the other, each with its refusal: a chain of `or_else` says no more.
        if let Some(refusal) = range_refusal(&[number, delay], &RANGES) {
            return Some(refusal);
        }
        if below.days() != 0 {
            return Some(Refusal::Started);
        }
        if u64::from(below.quote()).saturating_add(delay) > HORIZON as u64 {
            return Some(Refusal::Misfit);
        }
        None
    }

    /// A delay of so many days over this supplier; an idle layer where the question refuses it.
    pub fn over(below: S, number: u64, delay: u64) -> Delay<S>
        ensures kept { Keeps (λ w. (w.below ≡ below) × Fresh number delay w.own) Kind.Delay (named number) below result }
        ensures made { S.valid below → Given (DelayPasses (S.meaning below) number delay)
            (DelayNew S.valid S.meaning below number delay) Kind.Delay (named number) below result }
    {
        if Delaying::question(&below, number, delay).is_some() {
            return Layer::resting(number, Kind::Delay, below);
        }
        Layer::Working(Delaying {
            below,
            own: fresh(kept_number(number), delay as u8),
        })
    }
}
