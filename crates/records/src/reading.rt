// A file is read record by record.
ghost use Rattle.records.specs.Files.{Sized};
ghost use Rattle.records.specs.Steps.{Step};

use crate::kind::RecordKind;
use crate::lines::next_line;
use crate::plant_fault::PlantFault;
use crate::record::Record;
use crate::record_fault::RecordFault;

/// The most bytes of a file; `most_file` in specs/Files.antt.
pub const MOST_FILE: usize = 65_536;

/// Refuses a file that has too many bytes.
pub fn check_size(file: &[u8]) -> Result<(), PlantFault>
    ensures { Sized file.now result }
{
    if file.len() > MOST_FILE {
        return Err(PlantFault::LongFile);
    }
    Ok(())
}

// What is left of a file goes in and comes out: a struct that kept it and the number would change in place, and say no more.
/// The record with this number, which is due to be of this kind, from what is left of a file, and what is left after it; none at the end of the file.
pub fn next_record(
    rest: &[u8],
    number: usize,
    due: RecordKind,
) -> Result<Option<(Record, &[u8])>, RecordFault>
    ensures { Step due number rest.now result }
{
    if rest.is_empty() {
        return Ok(None);
    }
    let (line, after) = next_line(rest, number)?;
    let record = Record::read(line, number, due)?;
    Ok(Some((record, after)))
}
