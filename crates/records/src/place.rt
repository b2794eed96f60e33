// Where a word stands in a file.
ghost use Rattle.std.specs.Prelude.{◌≡◌};
ghost use Rattle.records.specs.RecordFaults.{whole_record};

/// The record, and the field after its mark, each counted from 1; the mark itself is field 0.
/// The default is no place: by the project's rule a fault prints 0 where there is none, so both are 0.
#[derive(Clone, Copy, PartialEq, Eq, Debug, Default)]
pub struct Place {
    pub record: usize,
    pub field: usize,
}

impl Place {
    /// The place of a record as a whole, where no field is to blame.
    pub fn of_record(record: usize) -> Place
        ensures { result ≡ whole_record «record» }
    {
        Place { record, field: 0 }
    }
}
