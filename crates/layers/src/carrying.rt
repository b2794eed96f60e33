// A fault that is carried from below.
ghost use Rattle.std.specs.Prelude.{◌≡◌};
ghost use Rattle.layers.specs.Carrying.{carried};

use supplier::{Fault, MOST_LAYERS};

/// The fault as a layer carries it: one layer more, up to the most layers.
pub fn carry(fault: Fault) -> Fault
    ensures { result ≡ carried fault }
{
    Fault {
        layers: fault.layers.saturating_add(1).min(MOST_LAYERS),
        ..fault
    }
}
