// The numbers of suppliers.
ghost use Rattle.std.specs.Prelude.{◌≡◌};
ghost use Rattle.supplier.specs.Numbers.{named};

use figures::Range;

/// The numbers that a supplier may have; they may repeat.
pub const NUMBERS: Range = Range {
    low: 1,
    high: 9_999,
};

/// A number as a supplier keeps it: one out of range becomes 1.
pub fn kept_number(number: u64) -> u16
    ensures { result ≡ named number }
{
    if NUMBERS.holds(number) {
        number as u16
    } else {
        1
    }
}
