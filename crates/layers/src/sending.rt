// An order that is sent below.
ghost use Rattle.std.specs.Prelude.{◌≡◌, ◌∷◌, None, IsSome};
ghost use Rattle.supplier.specs.Orders.{due};
ghost use Rattle.supplier.specs.Meaning.{Taken, Laid};
ghost use Rattle.supplier.specs.Shelves.{figures_of};

use supplier::Supplier;

/// Sends an order below, and tells what is received: nothing where it is refused.
pub fn send<S: Supplier>(below: &mut S, q: u64) -> u64
    ensures stays { S.Supplier.valid below.old → S.Supplier.valid below.new }
    ensures taken { S.Supplier.valid below.old → (S.Supplier.meaning below.old).service.refusal q ≡ None
        → (result ≡ due (S.Supplier.meaning below.old).service.quote (S.Supplier.meaning below.old).service.book q)
        × Taken (S.Supplier.meaning below.old).service q (S.Supplier.meaning below.new).service
        × Laid (S.Supplier.layout below.old (q ∷ (S.Supplier.meaning below.old).service.book)) (S.Supplier.meaning below.new).sheet }
    ensures refused { S.Supplier.valid below.old → IsSome ((S.Supplier.meaning below.old).service.refusal q)
        → (result ≡ 0) × (S.Supplier.meaning below.new ≡ S.Supplier.meaning below.old) }
    ensures lays { S.Supplier.valid below.old → S.Supplier.layout below.new ≡ S.Supplier.layout below.old }
    ensures stocks { S.Supplier.valid below.old → figures_of (S.Supplier.shelves below.new) ≡ figures_of (S.Supplier.shelves below.old) }
{
    below.day(q).unwrap_or(0)
}
