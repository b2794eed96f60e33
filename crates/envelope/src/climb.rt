// The climbing list: the demand that reaches an envelope's bound every day.
ghost use Rattle.std.specs.Prelude.{◌≡◌, ◌≤◌};
ghost use Rattle.figures.specs.Days.{horizon};
ghost use Rattle.envelope.specs.Climbs.{Climbs};

use crate::envelope::Envelope;
use figures::HORIZON;

/// The bound of `k` days, where `k` is at most the horizon. A type for such days would have to be opened at every place.
fn near<E: Envelope>(e: &E, k: usize) -> u64
    requires { k ≤ horizon }
    ensures { result ≡ (E.meaning e.now).bound k }
{
    e.bound(k as u8).unwrap_or(0)
}

/// The orders whose first `k` together are the bound of `k` days, for every `k` up to the horizon.
pub fn climbing<E: Envelope>(e: &E) -> [u64; HORIZON]
    ensures { Climbs (E.meaning e.now) result }
{
    // Each bound is asked once. A closure for `from_fn` that keeps the bound before is slower by half over a table.
    let mut orders = [0; HORIZON];
    let mut before = 0;
    for k in 0..HORIZON {
        let reached = near(e, k + 1);
        orders[k] = reached - before;
        before = reached;
    }
    orders
}
