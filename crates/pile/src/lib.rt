// Piles: any list of calls replayed on any supplier, and what every such list keeps.
#![tactic(auto)]

mod calls;
mod replaying;

pub use calls::{Call, Event};
pub use replaying::replay;
