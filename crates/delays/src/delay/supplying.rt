// A delay at work as a supplier.
ghost use Rattle.std.specs.Prelude.{map};
ghost use Rattle.layers.specs.Sheets.{later};
ghost use Rattle.delays.specs.Delays.{delayed, delay_layout, Late};
ghost use Rattle.delays.specs.DelayLaws.{delayed_sound, delayed_shelved};

use crate::delay::Delaying;
use layers::{carry, line_under, lines_over};
use supplier::{Fault, Kind, Line, Supplier};

impl<S: Supplier> Supplier for Delaying<S> {
    ghost valid = { λ s. S.valid s.below × Late (S.meaning s.below) s.own };

    ghost meaning = { λ s. delayed s.own (S.meaning s.below) };

    ghost layout = { λ s. delay_layout s.own.number s.own.delay (S.meaning s.below).service.quote (S.layout s.below) };

    ghost shelves = { λ s. map later (S.shelves s.below) };

    ghost sound = { λ s v. delayed_sound s.own (S.meaning s.below) v.1 (S.Supplier.sound s.below v.0) };

    ghost shelved = { λ s v. delayed_shelved s.own (S.meaning s.below) (S.shelves s.below) (S.Supplier.shelved s.below v.0) };

    ghost enveloped = { λ s v. tt };

    fn quote(&self) -> u8 {
        self.below.quote().saturating_add(self.own.delay)
    }

    fn limit(&self, k: u8) -> Option<u64> {
        self.below.limit(k)
    }

    fn days(&self) -> u32 {
        self.below.days()
    }

    fn lines(&self) -> usize {
        lines_over(self.below.lines())
    }

    fn line(&self, i: usize) -> Option<Line> {
        if i > 0 {
            return line_under(&self.below, i);
        }
        Some(Line {
            number: self.own.number,
            kind: Kind::Delay,
            order: self.own.ordered,
            delivery: self.own.delivered,
            held: self.in_transit(),
        })
    }

    fn trial(&self, q: u64) -> Option<Fault> {
        self.below.trial(q).map(|fault| carry(fault))
    }

    fn day(&mut self, q: u64) -> Result<u64, Fault> {
        let received = self.below.day(q).map_err(|fault| carry(fault))?;
        let due = self.own.received.due(self.own.delay, received).unwrap_or(0);
        let _ = self.own.received.take(received);
        self.own.ordered = q;
        self.own.delivered = due;
        Ok(due)
    }
}
