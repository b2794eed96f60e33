// The making of an idle layer.
ghost use Rattle.std.specs.Prelude.{◌≡◌};
ghost use Rattle.vendors.specs.Idles.{idle_meaning, idled};

use crate::idle::IdleTerms;
use crate::vendor::Vendor;
use supplier::Kind;

/// An idle layer: it calls nothing below, and counts the days of orders of 0.
pub type Idle = Vendor<IdleTerms>;

impl Vendor<IdleTerms> {
    /// An idle layer of this number and kind, with no day taken.
    pub fn new(number: u16, kind: Kind) -> Self
        ensures { idle_meaning result ≡ idled kind number }
    {
        Vendor::opened(number, IdleTerms { kind })
    }
}
