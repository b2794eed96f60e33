// The printed form of calls and their answers.
use pile::Event;
use printed::{LineFigures, RefusedDay};
use std::fmt;

/// A call with its answer, as it is printed.
#[derive(Clone, Copy)]
pub(crate) struct Told(pub Event);

impl fmt::Display for Told {
    fn fmt<W: fmt::Write>(&self, f: &mut fmt::Formatter<W>) -> fmt::Result {
        match self.0 {
            Event::Trial(q, None) => write!(f, "trial {q}: free"),
            Event::Trial(q, Some(fault)) => write!(f, "trial {q}: {}", RefusedDay(fault)),
            Event::Day(q, Ok(delivery)) => write!(f, "day {q}: {delivery}"),
            Event::Day(q, Err(fault)) => write!(f, "day {q}: {}", RefusedDay(fault)),
            Event::Quote(quote) => write!(f, "quote: {quote}"),
            Event::Limit(k, None) => write!(f, "limit {k}: none"),
            Event::Limit(k, Some(limit)) => write!(f, "limit {k}: {limit}"),
            Event::Days(days) => write!(f, "days: {days}"),
            Event::Lines(lines) => write!(f, "lines: {lines}"),
            Event::Line(i, None) => write!(f, "line {i}: none"),
            Event::Line(i, Some(line)) => write!(f, "line {i}: {}", LineFigures(line)),
        }
    }
}
