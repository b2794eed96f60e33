// A ledger: a supplier's number, limits, book and days, which finds every cause of refusal itself.
ghost use Rattle.std.specs.Prelude.{◌≤◌};
ghost use Rattle.supplier.specs.Orders.{term, Before};
ghost use Rattle.supplier.specs.Books.{orders_of};

use crate::book::Book;
use crate::limits::Limits;

pub mod days;

/// The last day that can be taken; `term` in specs/Orders.antt.
pub const TERM: u32 = 1_000_000;

/// What a supplier keeps that finds its refusals itself.
#[derive(Drop)]
pub struct Ledger {
    pub number: u16,
    pub limits: Limits,
    pub book: Book,
    pub days: u32,
    ghost until: { days ≤ term },
    ghost before: { Before days (orders_of book) },
}
