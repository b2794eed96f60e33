// Stages over any supplier.
#![tactic(auto)]

mod goods;
mod stage;
mod stock;

pub use goods::Goods;
pub use stage::Staging;
pub use stage::making::{STOCKS, Stage, TIMES};
