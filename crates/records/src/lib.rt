// Files of records: their words, their lines, and what is refused of them.
#![tactic(auto)]

mod cuts;
mod fields;
mod kind;
mod lines;
mod numerals;
mod place;
mod plant_fault;
mod reading;
mod record;
mod record_fault;
mod word;
mod word_fault;

pub use kind::RecordKind;
pub use lines::next_line;
pub use numerals::number;
pub use place::Place;
pub use plant_fault::PlantFault;
pub use reading::{MOST_FILE, check_size, next_record};
pub use record::Record;
pub use record_fault::RecordFault;
pub use word::Word;
pub use word_fault::WordFault;
