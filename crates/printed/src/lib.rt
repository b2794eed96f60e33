// The printed form of sheets and refusals, byte for byte.
#![tactic(auto)]

mod texts;

pub use texts::{DayLine, LineFigures, RefusedDay};
