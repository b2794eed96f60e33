// A word of a line, as it came.
ghost use Rattle.records.specs.Readings.{IsWord, FigureRead};

use crate::numerals::number;
use crate::place::Place;
use crate::word_fault::WordFault;
use figures::Range;

/// A part of the line and its place.
pub enum Word<'a> {
    /// The mark of a record. By the project's rule a word is a mark, a number or junk, each with its part and its place;
    /// `RecordKind::text_of` takes marks apart by their bytes, so no word of this kind is made here.
    Mark(&'a [u8], Place),
    /// A number.
    Number(&'a [u8], Place),
    /// Anything else.
    Junk(&'a [u8], Place),
}

impl<'a> Word<'a> {
    /// The word of a field: a number or junk.
    pub fn field(part: &'a [u8], place: Place) -> Word<'a>
        ensures { IsWord part.now place result }
    {
        match number(part) {
            Some(_) => Word::Number(part, place),
            None => Word::Junk(part, place),
        }
    }

    /// The figure that a word writes, where it is within its range.
    pub fn figure(self, range: Range) -> Result<u64, WordFault>
        ensures { FigureRead self.entry range result }
    {
        match self {
            Word::Number(part, place) => {
                let figure = number(part).ok_or(WordFault::NoNumber(place))?;
                if range.holds(figure) {
                    Ok(figure)
                } else {
                    Err(WordFault::OutOfRange(place))
                }
            }
            Word::Mark(_, place) | Word::Junk(_, place) => Err(WordFault::NoNumber(place)),
        }
    }
}
