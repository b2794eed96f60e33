// What can be asked of a supplier, and what it answers.
use supplier::{Fault, Line};

/// A call of a supplier: a trial or a day with an order, or a reading.
#[derive(Clone, Copy)]
pub enum Call {
    Trial(u64),
    Day(u64),
    Quote,
    Limit(u8),
    Days,
    Lines,
    Line(usize),
}

/// A call with its answer, whose type is the call's own; so the cases of a call stand here again.
#[derive(Clone, Copy)]
pub enum Event {
    Trial(u64, Option<Fault>),
    Day(u64, Result<u64, Fault>),
    Quote(u8),
    Limit(u8, Option<u64>),
    Days(u32),
    Lines(usize),
    Line(usize, Option<Line>),
}
