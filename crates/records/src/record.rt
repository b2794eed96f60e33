// A record, and how it is read from its line.
ghost use Rattle.records.specs.Records.{ReadsBack, RecordRead, TextRead};

use crate::fields::Fields;
use crate::kind::RecordKind;
use crate::record_fault::RecordFault;

/// The figures of a record, in the order of its fields.
#[derive(Clone, Copy)]
pub enum Record {
    Calendar([u64; 4]),
    Delay([u64; 2]),
    Pipeline([u64; 3]),
    RootStage([u64; 6]),
    Assembly([u64; 3]),
    BucketStage([u64; 7]),
    Day([u64; 1]),
}

impl Record {
    /// The record with this number, which is due to be of this kind, from its line.
    pub fn read(line: &[u8], number: usize, due: RecordKind) -> Result<Record, RecordFault>
        ensures read { RecordRead due number line.now result }
        ensures back { ReadsBack due line.now result }
    {
        let text = due.text_of(line).ok_or(RecordFault::NoMark(number))?;
        Record::from_fields(Fields { text, number }, due)
    }

    /// The record of this kind that the fields write.
    fn from_fields(fields: Fields, kind: RecordKind) -> Result<Record, RecordFault>
        ensures { TextRead kind fields.entry.number fields.entry.text.now result }
    {
        let ranges = kind.ranges();
        // An arm for each kind: their arrays have lengths, and so types, of their own.
        match kind {
            RecordKind::Calendar => Ok(Record::Calendar(fields.figures(ranges)?)),
            RecordKind::Delay => Ok(Record::Delay(fields.figures(ranges)?)),
            RecordKind::Pipeline => Ok(Record::Pipeline(fields.figures(ranges)?)),
            RecordKind::RootStage => Ok(Record::RootStage(fields.figures(ranges)?)),
            RecordKind::Assembly => Ok(Record::Assembly(fields.figures(ranges)?)),
            RecordKind::BucketStage => Ok(Record::BucketStage(fields.figures(ranges)?)),
            RecordKind::Day => Ok(Record::Day(fields.figures(ranges)?)),
        }
    }
}
