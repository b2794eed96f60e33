// What a supplier is: faults, lines, limits, the book of orders, and the trait with its meaning.
#![tactic(auto)]

mod always;
mod book;
mod fault;
mod ledger;
mod limits;
mod line;
mod numbers;
mod supplier;

pub use always::AlwaysValid;
pub use book::Book;
pub use book::broken::Broken;
pub use fault::{Cause, Fault, MOST_LAYERS};
pub use ledger::{Ledger, TERM};
pub use limits::Limits;
pub use line::{Kind, Line, MOST_LINES};
pub use numbers::{NUMBERS, kept_number};
pub use supplier::Supplier;
