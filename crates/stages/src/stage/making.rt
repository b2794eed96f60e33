// The question and the making of a stage.
ghost use Rattle.std.specs.Prelude.{◌≡◌, ◌≤◌, [], ◌∷◌, IfNone, IfSome};
ghost use Rattle.figures.specs.Days.{horizon, most, for_days};
ghost use Rattle.figures.specs.Ranges.{AllIn};
ghost use Rattle.supplier.specs.Numbers.{named};
ghost use Rattle.layers.specs.Makings.{Given, Keeps};
ghost use Rattle.layers.specs.Questions.{Barred};
ghost use Rattle.figures.specs.Joins.{Joins};
ghost use Rattle.stages.specs.StageMaking.{stage_ranges, Copies, StageAsked, StagePasses, StageNew, Stocked};

use crate::stage::Staging;
use crate::stage::bounds::{copied, under};
use crate::stock::Stock;
use envelope::Envelope;
use figures::{DAYS, HORIZON, MOST_PIECES, Range, Refusal, range_refusal};
use layers::Layer;
use supplier::{Book, Kind, Ledger, Limits, NUMBERS, Supplier, kept_number};

/// A stage over a supplier, as its making gives it.
pub type Stage<S> = Layer<Staging<S>, S>;

/// The range of a stage's times.
pub const TIMES: Range = DAYS;

/// The range of a base stock.
pub const STOCKS: Range = Range {
    low: 0,
    high: MOST_PIECES,
};

/// The ranges of the number, the process time, the quote and the base stock.
const RANGES: [Range; 4] = [NUMBERS, TIMES, TIMES, STOCKS];

/// The figures of a stage before the first day: its shelf holds the base stock.
fn stocked(number: u16, limits: Limits, process: u8, quote: u8, base: u64) -> Stock
    requires brief { process ≤ horizon }
    requires near { quote ≤ horizon }
    requires small { base ≤ most }
    requires joins { Joins (for_days limits.bounds) }
    ensures { Stocked number limits.bounds process quote base result }
{
    Stock {
        ledger: Ledger::new(number, limits),
        process,
        quote,
        base,
        shelf: base,
        works: Book::new(),
        delivered: 0,
    }
}

// The figures come one by one, as a file's record has them: a struct would be a second name for that record.
impl<S: Supplier> Staging<S> {
    /// The refusal of a stage with these figures and this envelope over this supplier, or none.
    pub fn question<E: Envelope>(
        below: &S,
        number: u64,
        process: u64,
        quote: u64,
        base: u64,
        envelope: &E,
    ) -> Option<Refusal>
        ensures ranged { IfNone result (AllIn stage_ranges (number ∷ process ∷ quote ∷ base ∷ [])) }
        ensures barred { IfSome result (Barred stage_ranges (number ∷ process ∷ quote ∷ base ∷ [])) }
        ensures asked { S.valid below.now → StageAsked (S.meaning below.now) (E.meaning envelope.now).bound number process quote base result }
    {
        // One test after the other, each with its refusal: a chain of `or_else` says no more.
        if let Some(refusal) = range_refusal(&[number, process, quote, base], &RANGES) {
            return Some(refusal);
        }
        if below.days() != 0 {
            return Some(Refusal::Started);
        }
        let ready = u64::from(below.quote()).saturating_add(process);
        if ready > HORIZON as u64 || quote > ready {
            return Some(Refusal::Misfit);
        }
        if !under(&copied(envelope), below) {
            return Some(Refusal::AboveLimit);
        }
        if envelope.bound((ready - quote) as u8).unwrap_or(0) > base {
            return Some(Refusal::LowBase);
        }
        None
    }

    /// A stage with these figures and this envelope over this supplier; an idle layer where the question refuses it.
    pub fn over<E: Envelope>(
        below: S,
        number: u64,
        process: u64,
        quote: u64,
        base: u64,
        envelope: &E,
    ) -> Stage<S>
        ensures kept { Keeps (λ w. (w.below ≡ below) × Copies (E.meaning envelope.now).bound w.own.ledger.limits.bounds
            × Stocked number w.own.ledger.limits.bounds process quote base w.own) Kind.Stage (named number) below result }
        ensures made { S.valid below → Given (StagePasses (S.meaning below) (E.meaning envelope.now).bound number process quote base)
            (StageNew S.valid S.meaning below (E.meaning envelope.now).bound number process quote base) Kind.Stage (named number) below result }
    {
        if Staging::question(&below, number, process, quote, base, envelope).is_some() {
            return Layer::resting(number, Kind::Stage, below);
        }
        let own = stocked(
            kept_number(number),
            copied(envelope),
            process as u8,
            quote as u8,
            base,
        );
        Layer::Working(Staging { below, own })
    }
}
