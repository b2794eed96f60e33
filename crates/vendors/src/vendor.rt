// A vendor of any terms. Its opening and what it does as a supplier stand in vendor/.
ghost use Rattle.std.specs.Prelude.{◌≡◌};
ghost use Rattle.vendors.specs.Periods.{Tells};

use crate::source::Source;
use crate::terms::Terms;

pub mod opening;
pub mod supplying;

/// Delivers each order on the quoted day, and takes no more than its limits.
#[derive(Drop)]
pub struct Vendor<T: Terms> {
    source: Source,
    pub(crate) terms: T,
    ghost quoted: { source.quote ≡ T.quote terms },
    ghost tells: { Tells (T.limit terms) source.ledger.limits.bounds },
}
