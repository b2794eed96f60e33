// An assembly at work. What it does as a supplier stands in assembly/.
use crate::kits::Kits;
use supplier::Supplier;

pub mod holding;
pub mod making;
pub mod supplying;

/// Makes kits of parts from the left and from the right; earlier parts wait.
#[derive(Drop)]
pub struct Assembling<L: Supplier, R: Supplier> {
    left: L,
    right: R,
    own: Kits,
}
