// What all layers share: layers are suppliers that stand over other suppliers.
#![tactic(auto)]

mod carrying;
mod layer;
mod resting;
mod sending;
mod sheets;

pub use carrying::carry;
pub use layer::Layer;
pub use sending::send;
pub use sheets::{line_below, line_under, lines_over};
pub use vendors::Idle;
