// A delay at work. Its question and making, and what it does as a supplier, stand in delay/.
use crate::transit::Transit;
use supplier::Supplier;

pub mod holding;
pub mod making;
pub mod supplying;

/// Hands on each day what it received so many days before.
#[derive(Drop)]
pub struct Delaying<S: Supplier> {
    below: S,
    own: Transit,
}
