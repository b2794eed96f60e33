// The fields of a record, one by one from the left.
ghost use Rattle.std.specs.Prelude.{◌≡◌, length, MatchResult};
ghost use Rattle.records.specs.Fields.{Filled, FaultyFields};

use crate::cuts::cut;
use crate::place::Place;
use crate::record_fault::RecordFault;
use crate::word::Word;
use figures::Range;

/// The text after a record's mark and space, and the number of the record.
#[derive(Clone, Copy)]
pub(crate) struct Fields<'a> {
    pub(crate) text: &'a [u8],
    pub(crate) number: usize,
}

impl<'a> Fields<'a> {
    /// The figures that the fields write, one for each range.
    pub(crate) fn figures<const N: usize>(self, ranges: &[Range]) -> Result<[u64; N], RecordFault>
        requires { length ranges.now ≡ N }
        ensures { MatchResult result (Filled ranges.now self.entry.text.now) (FaultyFields ranges.now self.entry.number self.entry.text.now) }
    {
        let mut figures = [0; N];
        let mut rest = Some(self.text);
        for (i, range) in ranges.iter().enumerate() {
            let place = Place {
                record: self.number,
                field: i + 1,
            };
            let text = rest.ok_or(RecordFault::FieldCount(place))?;
            let (part, after) = cut(text, b' ');
            // By index: of what is written through `iter_mut` and `zip` the proof knows no figure.
            figures[i] = Word::field(part, place).figure(*range)?;
            rest = after;
        }
        match rest {
            None => Ok(figures),
            Some(_) => Err(RecordFault::FieldCount(Place {
                record: self.number,
                field: ranges.len() + 1,
            })),
        }
    }
}
