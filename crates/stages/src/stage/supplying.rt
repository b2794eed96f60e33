// A stage at work as a supplier.
ghost use Rattle.std.specs.Prelude.{◌+◌, ◌∷◌, map, Some};
ghost use Rattle.layers.specs.Sheets.{later};
ghost use Rattle.stages.specs.Stages.{staged, stage_layout, own_shelf, bound_of, Tied};
ghost use Rattle.stages.specs.StageLaws.{staged_sound, staged_shelved, staged_enveloped};

use crate::stage::Staging;
use layers::{line_under, lines_over, send};
use supplier::{Fault, Kind, Line, Supplier};

impl<S: Supplier> Supplier for Staging<S> {
    ghost valid = { λ s. S.valid s.below × Tied (S.meaning s.below) s.own };

    ghost meaning = { λ s. staged s.own (S.meaning s.below) };

    ghost layout = { λ s. stage_layout s.own.ledger.number s.own.base s.own.quote ((S.meaning s.below).service.quote + s.own.process) (S.layout s.below) };

    ghost shelves = { λ s. own_shelf s.own.base s.own.quote ((S.meaning s.below).service.quote + s.own.process) ∷ map later (S.shelves s.below) };

    ghost envelope = { λ s. Some (bound_of s.own) };

    ghost sound = { λ s v. staged_sound s.own (S.meaning s.below) };

    ghost shelved = { λ s v. staged_shelved s.own (S.meaning s.below) (S.shelves s.below) v.1 (S.Supplier.shelved s.below v.0) };

    ghost enveloped = { λ s v. staged_enveloped s.own (S.meaning s.below) (map later (S.shelves s.below)) };

    fn quote(&self) -> u8 {
        self.own.quote
    }

    fn limit(&self, k: u8) -> Option<u64> {
        self.own.ledger.limits.told(k)
    }

    fn days(&self) -> u32 {
        self.own.ledger.days
    }

    fn lines(&self) -> usize {
        lines_over(self.below.lines())
    }

    fn line(&self, i: usize) -> Option<Line> {
        if i > 0 {
            return line_under(&self.below, i);
        }
        Some(Line {
            number: self.own.ledger.number,
            kind: Kind::Stage,
            order: self.own.ledger.book.last(),
            delivery: self.own.delivered,
            held: self.own.shelf,
        })
    }

    fn trial(&self, q: u64) -> Option<Fault> {
        self.own.ledger.refusal(q)
    }

    fn day(&mut self, q: u64) -> Result<u64, Fault> {
        let due = self.own.ledger.book.due(self.own.quote, q).unwrap_or(0);
        self.own.ledger.take(q)?;
        let received = send(&mut self.below, q);
        self.own.restock(received, due);
        Ok(due)
    }
}
