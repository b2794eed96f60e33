// The lines that a day prints: one for each line of the sheet, or one for the refusal.
ghost use Rattle.std.specs.Prelude.{Some};
ghost use Rattle.printed.specs.Texts.{line_figures, line_text, fault_text};

use std::fmt;
use supplier::{Fault, Line};

/// `number kind order delivery held`: the figures of a line of the sheet.
#[derive(Clone, Copy)]
pub struct LineFigures(pub Line);

impl fmt::Display for LineFigures {
    ghost output = { λ x. Some (line_figures x.0) };

    fn fmt<W: fmt::Write>(&self, f: &mut fmt::Formatter<W>) -> fmt::Result {
        let Line {
            number,
            kind,
            order,
            delivery,
            held,
        } = self.0;
        write!(f, "{number} {kind} {order} {delivery} {held}")
    }
}

/// `LN day number kind order delivery held`: a line of the sheet after a day that was taken.
#[derive(Clone, Copy)]
pub struct DayLine {
    pub day: u32,
    pub line: Line,
}

impl fmt::Display for DayLine {
    ghost output = { λ x. Some (line_text x.day x.line) };

    fn fmt<W: fmt::Write>(&self, f: &mut fmt::Formatter<W>) -> fmt::Result {
        let day = self.day;
        let figures = LineFigures(self.line);
        write!(f, "LN {day} {figures}")
    }
}

/// `RF cause number day window bound sum layers`: a day that was refused.
#[derive(Clone, Copy)]
pub struct RefusedDay(pub Fault);

impl fmt::Display for RefusedDay {
    ghost output = { λ x. Some (fault_text x.0) };

    fn fmt<W: fmt::Write>(&self, f: &mut fmt::Formatter<W>) -> fmt::Result {
        let Fault {
            cause,
            number,
            day,
            window,
            bound,
            sum,
            layers,
        } = self.0;
        write!(
            f,
            "RF {cause} {number} {day} {window} {bound} {sum} {layers}"
        )
    }
}
