// A source tells its line and takes its days.
ghost use Rattle.std.specs.Prelude.{◌≡◌};
ghost use Rattle.vendors.specs.Sources.{line_of, Served};

use crate::source::Source;
use supplier::{Fault, Kind, Line};

impl Source {
    /// The one line of a vendor's sheet: held are the pieces ordered and not yet delivered.
    pub fn line(&self, kind: Kind) -> Line
        ensures { result ≡ line_of kind self.now }
    {
        let book = &self.ledger.book;
        let held = book.sum(self.quote).unwrap_or(0);
        Line {
            number: self.ledger.number,
            kind,
            order: book.last(),
            delivery: self.delivered,
            held,
        }
    }

    /// Takes a day with the order q and delivers the order due, or refuses it and changes nothing.
    pub fn day(&mut self, q: u64) -> Result<u64, Fault>
        ensures { Served self.old q result self.new }
    {
        let due = self.ledger.book.due(self.quote, q).unwrap_or(0);
        self.ledger.take(q)?;
        self.delivered = due;
        Ok(due)
    }
}
