// Why a file is refused, or a day of it.
ghost use Rattle.std.specs.Prelude.{◌≡◌};
ghost use Rattle.records.specs.declared.plant_fault.PlantFault.TheVariants.{Record, Day};
ghost use Rattle.records.specs.PlantFaults.{plant_number, plant_place};

use crate::place::Place;
use crate::record_fault::RecordFault;
use figures::Refusal;
use supplier::Fault;

/// Why a file is refused, or a day of it.
#[derive(Clone, Copy, PartialEq, Eq, Debug)]
pub enum PlantFault {
    /// 12, 21, 31, 32 or 36: the fault of one of its records.
    Record(RecordFault),
    /// 12 to 16: what the record with this number is for cannot be made.
    Making(usize, Refusal),
    /// 37: the file has too many bytes.
    LongFile,
    /// 1, 2 or 3: a supplier refuses the day.
    Day(Fault),
}

// By hand, since the `From` of a derive has no contract.
impl From<RecordFault> for PlantFault {
    ghost from_gives = { λ fault r. r ≡ Record fault };

    fn from(fault: RecordFault) -> PlantFault {
        PlantFault::Record(fault)
    }
}

// By hand, as above.
impl From<Fault> for PlantFault {
    ghost from_gives = { λ fault r. r ≡ Day fault };

    fn from(fault: Fault) -> PlantFault {
        PlantFault::Day(fault)
    }
}

impl PlantFault {
    /// The number by which the fault is printed; of a day, that of its cause.
    pub fn number(self) -> u8
        ensures { result ≡ plant_number self }
    {
        match self {
            PlantFault::Record(fault) => fault.number(),
            PlantFault::Making(_, refusal) => refusal.number(),
            PlantFault::LongFile => 37,
            PlantFault::Day(fault) => fault.cause.number(),
        }
    }

    /// The record and the field to blame: 0 where there is none.
    pub fn place(self) -> Place
        ensures { result ≡ plant_place self }
    {
        match self {
            PlantFault::Record(fault) => fault.place(),
            PlantFault::Making(record, Refusal::OutOfRange(field) | Refusal::LawBroken(field)) => {
                Place { record, field }
            }
            PlantFault::Making(record, _) => Place::of_record(record),
            PlantFault::LongFile | PlantFault::Day(_) => Place::default(),
        }
    }
}
