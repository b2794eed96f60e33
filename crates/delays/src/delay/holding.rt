// What a delay holds.
ghost use Rattle.std.specs.Prelude.{◌≡◌};
ghost use Rattle.figures.specs.Days.{window};
ghost use Rattle.supplier.specs.Books.{orders_of};
ghost use Rattle.delays.specs.Delays.{Late};
ghost use Rattle.delays.specs.Conservation.{DelayConserves};

use crate::delay::Delaying;
use supplier::Supplier;

impl<S: Supplier> Delaying<S> {
    /// The pieces in transit: received, and not handed on yet.
    pub fn in_transit(&self) -> u64
        ensures told { result ≡ window self.now.own.delay (orders_of self.now.own.received) }
        ensures conserves { Late (S.meaning self.now.below) self.now.own → DelayConserves (S.meaning self.now.below) self.now.own.delay result }
    {
        self.own.received.sum(self.own.delay).unwrap_or(0)
    }
}
