// Calls are made one by one, and each is told with its answer.
ghost use Rattle.std.specs.Prelude.{◌≡◌, ℕ, List, map, IfOk, OnErr};
ghost use Rattle.supplier.specs.Shelves.{figures_of};
ghost use Rattle.pile.specs.Events.{asked};
ghost use Rattle.pile.specs.Steps.{Answered, state_of, terms_of};
ghost use Rattle.pile.specs.Runs.{Stands, Run, Kept};

use crate::calls::{Call, Event};
use std::alloc::{AllocError, Global};
use supplier::Supplier;

/// Makes one call, and tells it with its answer.
fn answer<S: Supplier>(supplier: &mut S, call: Call) -> Event
    ensures call { asked result ≡ call }
    ensures stays { S.valid supplier.old → S.valid supplier.new }
    ensures answered { S.valid supplier.old → Answered (S.layout supplier.old) (state_of S.Supplier supplier.old) result (state_of S.Supplier supplier.new) }
    ensures lays { S.valid supplier.old → S.layout supplier.new ≡ S.layout supplier.old }
    ensures stocks { S.valid supplier.old → figures_of (S.shelves supplier.new) ≡ figures_of (S.shelves supplier.old) }
{
    // A call is told with its answer, which a closure could not be.
    match call {
        Call::Trial(q) => Event::Trial(q, supplier.trial(q)),
        Call::Day(q) => Event::Day(q, supplier.day(q)),
        Call::Quote => Event::Quote(supplier.quote()),
        Call::Limit(k) => Event::Limit(k, supplier.limit(k)),
        Call::Days => Event::Days(supplier.days()),
        Call::Lines => Event::Lines(supplier.lines()),
        Call::Line(i) => Event::Line(i, supplier.line(i)),
    }
}

/// Makes the calls one by one, and tells each with its answer. Where there is no memory for the answers, no call is made.
pub fn replay<S: Supplier>(
    heap: Global,
    supplier: &mut S,
    calls: &[Call],
) -> Result<Vec<Event>, AllocError>
    ensures each { IfOk result (λ v. map asked v.items ≡ calls.now) }
    ensures unmade { OnErr result (supplier.new ≡ supplier.old) }
    ensures stays { S.valid supplier.old → S.valid supplier.new }
    ensures goes_on { S.valid supplier.old → (orders : List ℕ) → Stands (terms_of S.Supplier supplier.old) orders (state_of S.Supplier supplier.old)
        → IfOk result (λ v. Run (terms_of S.Supplier supplier.old) orders (state_of S.Supplier supplier.old) calls.now v.items (state_of S.Supplier supplier.new)) }
    ensures keeps { S.valid supplier.old → (S.meaning supplier.old).service.days ≡ 0
        → IfOk result (λ v. Kept (terms_of S.Supplier supplier.old) (S.envelope supplier.old) (state_of S.Supplier supplier.old) calls.now v.items (state_of S.Supplier supplier.new)) }
{
    let mut events = Vec::with_capacity(heap, calls.len())?;
    for call in calls {
        events.push(answer(supplier, *call))?;
    }
    Ok(events)
}
