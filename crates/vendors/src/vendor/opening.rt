// A vendor is opened.
ghost use Rattle.std.specs.Prelude.{◌≡◌};
ghost use Rattle.supplier.specs.Orders.{no_orders};
ghost use Rattle.vendors.specs.Sources.{vendor_of};
ghost use Rattle.vendors.specs.Vended.{vended};

use crate::source::Source;
use crate::terms::Terms;
use crate::vendor::Vendor;
use supplier::Ledger;

impl<T: Terms> Vendor<T> {
    /// A vendor with this number and these terms, with no day taken.
    pub fn opened(number: u16, terms: T) -> Self
        ensures meant { vendor_of (T.kind result.terms) (T.limit result.terms) result.source
            ≡ vended (T.kind terms) number (T.quote terms) (T.limit terms) 0 no_orders 0 }
        ensures kept { result.terms ≡ terms }
    {
        let source = Source {
            ledger: Ledger::new(number, terms.limits()),
            quote: terms.quote(),
            delivered: 0,
        };
        Vendor { source, terms }
    }
}
