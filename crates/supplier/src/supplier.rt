// The supplier's meaning: what every supplier tells, and what a day does.
ghost use Rattle.std.specs.Prelude.{◌≡◌, ℕ, List, [], length, IfSome, None, Option};
ghost use Rattle.std.specs.List.{slice_get, AllByRecursion};
ghost use Rattle.supplier.specs.Limits.{told_limit};
ghost use Rattle.supplier.specs.Meaning.{Meaning, Sound, Layout, untold, Day};
ghost use Rattle.supplier.specs.Shelves.{Placed, Shelved, Enveloped, figures_of};

use crate::fault::Fault;
use crate::line::Line;

/// Takes orders day by day, and delivers each on the quoted day.
///
/// Every promise is made of a valid supplier. Each making over valid suppliers gives a valid one, and a day keeps it valid.
pub trait Supplier {
    /// What ties a layer to what lies below it; a vendor is always valid, and need not say so.
    ghost valid: { Self → Type 0 } = { λ _. Unit {0} };

    ghost meaning: { Self → Meaning };

    /// How the sheet follows from the orders taken; it never changes. It need not be told.
    ghost layout: { Self → Layout } = { λ _. untold };

    /// The shelves of the stages at and below this supplier; a vendor has none.
    ghost shelves: { Self → List Placed } = { λ _. [] };

    /// The bounds of the envelope, where this supplier is a stage; no other has one.
    ghost envelope: { Self → Option (ℕ → ℕ) } = { λ _. None };

    /// The days from an order to its delivery.
    fn quote(&self) -> u8
        ensures { valid self.now → result ≡ (meaning self.now).service.quote };

    /// The most pieces of k days; absent for no days and for more than the horizon.
    fn limit(&self, k: u8) -> Option<u64>
        ensures { valid self.now → result ≡ told_limit (meaning self.now).service.limit k };

    /// The days taken.
    fn days(&self) -> u32
        ensures { valid self.now → result ≡ (meaning self.now).service.days };

    /// The number of lines of the sheet.
    fn lines(&self) -> usize
        ensures { valid self.now → result ≡ length (meaning self.now).sheet };

    /// The line with i lines above it; absent past the end.
    fn line(&self, i: usize) -> Option<Line>
        ensures { valid self.now → result ≡ slice_get (meaning self.now).sheet i };

    /// The refusal that a day with the order q would get, or none.
    fn trial(&self, q: u64) -> Option<Fault>
        ensures { valid self.now → result ≡ (meaning self.now).service.refusal q };

    /// Takes a day with the order q and answers the order due, or refuses it and changes nothing.
    fn day(&mut self, q: u64) -> Result<u64, Fault>
        ensures stays { valid self.old → valid self.new }
        ensures answers { valid self.old → Day (layout self.old) (meaning self.old) q result (meaning self.new) }
        ensures lays { valid self.old → layout self.new ≡ layout self.old }
        ensures stocks { valid self.old → figures_of (shelves self.new) ≡ figures_of (shelves self.old) };

    ghost sound: { (s : Self) → valid s → Sound (meaning s) };

    ghost shelved: { (s : Self) → valid s → AllByRecursion (Shelved (meaning s)) (shelves s) };

    ghost enveloped: { (s : Self) → valid s → IfSome (envelope s) (Enveloped (meaning s) (shelves s)) };
}
