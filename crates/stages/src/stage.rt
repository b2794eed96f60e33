// A stage at work. Its question and making, and what it does as a supplier, stand in stage/.
use crate::stock::Stock;
use supplier::Supplier;

pub mod bounds;
pub mod holding;
pub mod making;
pub mod supplying;

/// Takes orders within its envelope, sends each below on the same day, works on what it receives, and delivers from its shelf.
#[derive(Drop)]
pub struct Staging<S: Supplier> {
    below: S,
    own: Stock,
}
