// The horizon, the ranges that figures keep, and the refusals that figures get.
#![tactic(auto)]

mod horizon;
mod questions;
mod ranges;
mod refusals;

pub use horizon::{HORIZON, MOST_PIECES, within_horizon};
pub use questions::range_refusal;
pub use ranges::{DAYS, Range, first_out};
pub use refusals::Refusal;
