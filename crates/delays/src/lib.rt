// Delays over any supplier.
#![tactic(auto)]

mod delay;
mod transit;

pub use delay::Delaying;
pub use delay::making::{Delay, RANGES as DELAY_RANGES};
