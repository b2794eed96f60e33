// The own figures of an assembly. What a day does to them stands in kits/.
ghost use Rattle.std.specs.Prelude.{◌≤◌};
ghost use Rattle.supplier.specs.Orders.{term};

use crate::part::Part;
use supplier::Book;

pub mod assembling;

/// An assembly's kits: the parts that they take of each side, the orders, and the last delivery.
/// Not a `Ledger`: an assembly has no limits of its own to hold.
#[derive(Drop)]
pub struct Kits {
    pub number: u16,
    pub left: Part,
    pub right: Part,
    pub orders: Book,
    pub days: u32,
    pub delivered: u64,
    ghost until: { days ≤ term },
}
