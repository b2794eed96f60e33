// Why a word is no figure.
ghost use Rattle.std.specs.Prelude.{◌≡◌};
ghost use Rattle.records.specs.WordFaults.{word_number, word_place};

use crate::place::Place;

/// Why a word is not the figure that is due at its place.
#[derive(Clone, Copy, PartialEq, Eq, Debug)]
pub enum WordFault {
    /// 12: a number outside its range.
    OutOfRange(Place),
    /// 32: no number.
    NoNumber(Place),
}

impl WordFault {
    /// The number by which the fault is printed.
    pub fn number(self) -> u8
        ensures { result ≡ word_number self }
    {
        match self {
            WordFault::OutOfRange(_) => 12,
            WordFault::NoNumber(_) => 32,
        }
    }

    /// Where the word stands.
    pub fn place(self) -> Place
        ensures { result ≡ word_place self }
    {
        match self {
            WordFault::OutOfRange(place) | WordFault::NoNumber(place) => place,
        }
    }
}
