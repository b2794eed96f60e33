// A ledger is opened, tells the refusal of an order, and takes a day.
ghost use Rattle.std.specs.Prelude.{◌≡◌};
ghost use Rattle.supplier.specs.Ledgers.{Opened, refusal_of, RefusedPlainly, Entered};

use crate::book::Book;
use crate::fault::Fault;
use crate::ledger::{Ledger, TERM};
use crate::limits::Limits;

impl Ledger {
    /// A ledger with no day taken.
    pub fn new(number: u16, limits: Limits) -> Self
        ensures { Opened number limits result }
    {
        Ledger {
            number,
            limits,
            book: Book::new(),
            days: 0,
        }
    }

    /// The refusal that a day with the order q would get, or none.
    pub fn refusal(&self, q: u64) -> Option<Fault>
        ensures value { result ≡ refusal_of self.now q }
        ensures plain { RefusedPlainly self.now q result }
    {
        if self.days == TERM {
            return Some(Fault::term_spent(self.number));
        }
        self.book
            .first_broken(&self.limits, q)
            .map(|broken| Fault::over(self.number, self.days + 1, broken))
    }

    /// Takes a day with the order q, or tells why not and changes nothing.
    pub fn take(&mut self, q: u64) -> Result<(), Fault>
        ensures { Entered self.old q result self.new }
    {
        // A refusal found is an error here alone, so no `?` takes it.
        if let Some(refused) = self.refusal(q) {
            return Err(refused);
        }
        let _ = self.book.take(q);
        self.days += 1;
        Ok(())
    }
}
