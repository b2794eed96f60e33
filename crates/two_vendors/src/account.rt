// What was ordered of a supplier, what it delivered, and what is still to come.
ghost use Rattle.std.specs.Prelude.{◌≡◌, ◌-◌};
ghost use Rattle.figures.specs.Days.{window};
ghost use Rattle.supplier.specs.Meaning.{Day};
ghost use Rattle.two_vendors.specs.Balance.{Balanced, Counted};

use supplier::{Fault, Supplier};

/// A supplier with the pieces ordered of it and delivered by it since the account was opened.
/// That it balances is not of its type: one may be opened of a supplier that has taken days, and then it does not.
#[derive(Drop)]
pub struct Account<S: Supplier> {
    pub supplier: S,
    ordered: u64,
    delivered: u64,
}

impl<S: Supplier> Account<S> {
    /// An account of a supplier, with nothing counted yet. Of a new supplier it balances.
    pub fn open(supplier: S) -> Self
        ensures same { result.supplier ≡ supplier }
        ensures empty { (result.ordered ≡ 0) × (result.delivered ≡ 0) }
        ensures balanced { S.valid supplier → (S.meaning supplier).service.days ≡ 0
            → Balanced (S.meaning result.supplier).service result.ordered result.delivered }
    {
        Account {
            supplier,
            ordered: 0,
            delivered: 0,
        }
    }

    /// Takes a day with the order q, and counts the order and the delivery.
    pub fn day(&mut self, q: u64) -> Result<u64, Fault>
        ensures stays { S.valid self.old.supplier → S.valid self.new.supplier }
        ensures answers { S.valid self.old.supplier
            → Day (S.layout self.old.supplier) (S.meaning self.old.supplier) q result (S.meaning self.new.supplier) }
        ensures lays { S.valid self.old.supplier → S.layout self.new.supplier ≡ S.layout self.old.supplier }
        ensures counted { Counted self.old.ordered self.old.delivered q result self.new.ordered self.new.delivered }
        ensures balanced { S.valid self.old.supplier
            → Balanced (S.meaning self.old.supplier).service self.old.ordered self.old.delivered
            → Balanced (S.meaning self.new.supplier).service self.new.ordered self.new.delivered }
    {
        let delivery = self.supplier.day(q)?;
        self.ordered = self.ordered.saturating_add(q);
        self.delivered = self.delivered.saturating_add(delivery);
        Ok(delivery)
    }

    /// The pieces ordered and delivered since the account was opened.
    pub fn totals(&self) -> (u64, u64)
        ensures { result ≡ (self.now.ordered, self.now.delivered) }
    {
        (self.ordered, self.delivered)
    }

    /// The pieces still to come: where the account balances, those of the last days that the quote reaches back to.
    pub fn to_come(&self) -> u64
        ensures less { result ≡ self.now.ordered - self.now.delivered }
        ensures held { Balanced (S.meaning self.now.supplier).service self.now.ordered self.now.delivered
            → result ≡ window (S.meaning self.now.supplier).service.quote (S.meaning self.now.supplier).service.book }
    {
        self.ordered.saturating_sub(self.delivered)
    }
}
