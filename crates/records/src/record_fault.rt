// Why a line is no record.
ghost use Rattle.std.specs.Prelude.{◌≡◌};
ghost use Rattle.records.specs.declared.record_fault.RecordFault.TheVariants.{Word};
ghost use Rattle.records.specs.RecordFaults.{record_number, record_place};

use crate::place::Place;
use crate::word_fault::WordFault;

/// Why a line is not a record that is due there.
#[derive(Clone, Copy, PartialEq, Eq, Debug)]
pub enum RecordFault {
    /// 12 or 32: the fault of one of its words.
    Word(WordFault),
    /// 21: the figure at this place breaks a law of envelopes.
    LawBroken(Place),
    /// 31: the record of this number has no known mark and space, or is out of turn, or is missing.
    NoMark(usize),
    /// 32: the first field that is missing, or the first that is too many.
    FieldCount(Place),
    /// 36: the record of this number has too many bytes before its end, or no end.
    LongLine(usize),
}

// By hand, since the `From` of a derive has no contract.
impl From<WordFault> for RecordFault {
    ghost from_gives = { λ fault r. r ≡ Word fault };

    fn from(fault: WordFault) -> RecordFault {
        RecordFault::Word(fault)
    }
}

impl RecordFault {
    /// The number by which the fault is printed.
    pub fn number(self) -> u8
        ensures { result ≡ record_number self }
    {
        match self {
            RecordFault::Word(fault) => fault.number(),
            RecordFault::LawBroken(_) => 21,
            RecordFault::NoMark(_) => 31,
            RecordFault::FieldCount(_) => 32,
            RecordFault::LongLine(_) => 36,
        }
    }

    /// Where it was found: field 0 where no field is to blame.
    pub fn place(self) -> Place
        ensures { result ≡ record_place self }
    {
        match self {
            RecordFault::Word(fault) => fault.place(),
            RecordFault::LawBroken(place) | RecordFault::FieldCount(place) => place,
            RecordFault::NoMark(record) | RecordFault::LongLine(record) => Place::of_record(record),
        }
    }
}
