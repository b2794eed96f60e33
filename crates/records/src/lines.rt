// The lines of a file.
ghost use Rattle.records.specs.Lines.{LineRead};

use crate::cuts::cut;
use crate::record_fault::RecordFault;

/// The most bytes of a line before its end; `most_bytes` in specs/Lines.antt.
const MOST_BYTES: usize = 1_200;

// What is left of a file goes in and comes out, as in `next_record`.
/// The next line and what stands after its end; a fault of the record with this number where the line is too long or has no end.
pub fn next_line(rest: &[u8], number: usize) -> Result<(&[u8], &[u8]), RecordFault>
    ensures { LineRead number rest.now result }
{
    let (line, after) = cut(rest, b'\n');
    match after {
        Some(after) if line.len() <= MOST_BYTES => Ok((line, after)),
        _ => Err(RecordFault::LongLine(number)),
    }
}
