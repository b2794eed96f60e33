// What sets one vendor apart from another.
ghost use Rattle.std.specs.Prelude.{◌≡◌, ℕ, ◌≤◌};
ghost use Rattle.figures.specs.Days.{horizon};
ghost use Rattle.supplier.specs.declared.line.Kind.{Kind as LineKind};
ghost use Rattle.vendors.specs.Periods.{Tells};

use supplier::{Kind, Limits};

/// The terms of a vendor: the kind of its line, its quote and its limits. They never change.
pub trait Terms {
    ghost kind: { Self → LineKind };

    ghost quote: { Self → ℕ };

    /// The most pieces of k days.
    ghost limit: { Self → ℕ → ℕ };

    /// The kind of the vendor's line.
    fn kind(&self) -> Kind
        ensures { result ≡ kind self.now };

    /// The days from an order to its delivery.
    fn quote(&self) -> u8
        ensures told { result ≡ quote self.now }
        ensures near { result ≤ horizon };

    /// The most pieces of 1 day to the horizon, as a table.
    fn limits(&self) -> Limits
        ensures { Tells (limit self.now) result.bounds };
}
