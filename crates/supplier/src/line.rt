// A line of a supplier's sheet.
ghost use Rattle.std.specs.Prelude.{◌≡◌, [], ◌∷◌, Some};
ghost use Rattle.supplier.specs.Kinds.{letter};

use std::fmt;

/// The kinds of line, with their letters.
#[derive(Clone, Copy, PartialEq, Eq, Debug)]
pub enum Kind {
    Pipeline = b'P' as isize,
    Calendar = b'C' as isize,
    Delay = b'D' as isize,
    Assembly = b'A' as isize,
    Stage = b'S' as isize,
}

impl Kind {
    /// The letter by which a kind is printed.
    pub fn letter(self) -> char
        ensures { result ≡ letter self }
    {
        self as u8 as char
    }
}

impl fmt::Display for Kind {
    ghost output = { λ k. Some (letter k ∷ []) };

    fn fmt<W: fmt::Write>(&self, f: &mut fmt::Formatter<W>) -> fmt::Result {
        f.write_char(self.letter())
    }
}

/// The most lines of a sheet; `most_lines` in specs/Meaning.antt.
pub const MOST_LINES: usize = 1_000;

/// What the last day taken did at a supplier, and what it holds since.
#[derive(Clone, Copy, PartialEq, Eq, Debug)]
pub struct Line {
    pub number: u16,
    pub kind: Kind,
    pub order: u64,
    pub delivery: u64,
    pub held: u64,
}
