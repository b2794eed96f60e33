// Envelopes of demand: a bound for every stretch of days up to the horizon, and a mean.
#![tactic(auto)]

mod bucket;
mod climb;
mod envelope;
mod root;
mod rows;
mod table;

pub use bucket::{BURSTS, Bucket};
pub use climb::climbing;
pub use envelope::{DAILY, Envelope};
pub use root::{Root, SPREADS, least_root};
pub use table::Table;
