// An assembly at work as a supplier.
ghost use Rattle.std.specs.Prelude.{◌+◌, ◌++◌, map, length};
ghost use Rattle.assemblies.specs.Assemblies.{assembled, assembly_layout, scaled, Joined};
ghost use Rattle.assemblies.specs.AssemblyLaws.{assembled_sound, assembled_shelved};

use crate::assembly::Assembling;
use layers::{carry, lines_over, send};
use supplier::{Broken, Fault, Kind, Line, MOST_LINES, Supplier, TERM};

impl<L: Supplier, R: Supplier> Supplier for Assembling<L, R> {
    ghost valid = { λ s. L.valid s.left × R.valid s.right × Joined (L.meaning s.left) (R.meaning s.right) s.own };

    ghost meaning = { λ s. assembled s.own (L.meaning s.left) (R.meaning s.right) };

    ghost layout = { λ s. assembly_layout s.own.number s.own.left.per_kit s.own.right.per_kit (L.meaning s.left).service.quote (R.meaning s.right).service.quote (L.layout s.left) (R.layout s.right) };

    ghost shelves = { λ s. map (scaled s.own.left.per_kit 1) (L.shelves s.left) ++ map (scaled s.own.right.per_kit (1 + length (L.meaning s.left).sheet)) (R.shelves s.right) };

    ghost sound = { λ s v. assembled_sound s.own (L.meaning s.left) (R.meaning s.right) v.2 (L.Supplier.sound s.left v.0) (R.Supplier.sound s.right v.1) };

    ghost shelved = { λ s v.
        assembled_shelved s.own (L.meaning s.left) (R.meaning s.right) (L.shelves s.left) (R.shelves s.right)
        v.2 (L.Supplier.shelved s.left v.0) (R.Supplier.shelved s.right v.1) };

    ghost enveloped = { λ s v. tt };

    fn quote(&self) -> u8 {
        self.left.quote().max(self.right.quote())
    }

    fn limit(&self, k: u8) -> Option<u64> {
        let left = self.left.limit(k)? / self.own.left.per_kit;
        let right = self.right.limit(k)? / self.own.right.per_kit;
        Some(left.min(right))
    }

    fn days(&self) -> u32 {
        self.own.days
    }

    fn lines(&self) -> usize {
        lines_over(self.left.lines().saturating_add(self.right.lines()))
    }

    fn line(&self, i: usize) -> Option<Line> {
        // Two suppliers lie below, so `line_under`, which tells the lines of one, does not serve.
        if i >= MOST_LINES {
            return None;
        }
        if i > 0 {
            let left = self.left.lines();
            if i - 1 < left {
                return self.left.line(i - 1);
            }
            return self.right.line(i - 1 - left);
        }
        let waiting = self.waiting();
        let held = waiting.left.saturating_add(waiting.right);
        Some(Line {
            number: self.own.number,
            kind: Kind::Assembly,
            order: self.own.orders.last(),
            delivery: self.own.delivered,
            held,
        })
    }

    fn trial(&self, q: u64) -> Option<Fault> {
        if self.own.days == TERM {
            return Some(Fault::term_spent(self.own.number));
        }
        let top = self.limit(1).unwrap_or(0);
        if q > top {
            let broken = Broken {
                window: 1,
                bound: top,
                sum: q,
            };
            return Some(Fault::over(self.own.number, self.own.days + 1, broken));
        }
        // `carry` by its name alone, as a function of another crate, gets no proof.
        self.left
            .trial(self.own.left.wanted(q))
            .or_else(|| self.right.trial(self.own.right.wanted(q)))
            .map(|fault| carry(fault))
    }

    fn day(&mut self, q: u64) -> Result<u64, Fault> {
        // A fault found by the trial is an error here alone, so no `?` takes it.
        if let Some(fault) = self.trial(q) {
            return Err(fault);
        }
        let due = self.own.orders.due(self.quote(), q).unwrap_or(0);
        // Read first: to the proof, a loan of a part after a side has changed makes `self.own` another value.
        let left = self.own.left.wanted(q);
        let right = self.own.right.wanted(q);
        let from_left = send(&mut self.left, left);
        let from_right = send(&mut self.right, right);
        self.own.assemble(q, from_left, from_right, due);
        Ok(due)
    }
}
