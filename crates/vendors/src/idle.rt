// The terms of an idle layer: what a making gives that its question refuses. Its making stands in idle/.
ghost use Rattle.vendors.specs.Periods.{nothing};

use crate::periods::periodic_limits;
use crate::terms::Terms;
use supplier::{Kind, Limits};

pub mod making;

/// Orders of 0 are taken and delivered at once.
#[derive(Clone, Copy)]
pub struct IdleTerms {
    kind: Kind,
}

impl Terms for IdleTerms {
    ghost kind = { λ t. t.kind };

    ghost quote = { λ _. 0 };

    ghost limit = { λ _. nothing };

    fn kind(&self) -> Kind {
        self.kind
    }

    fn quote(&self) -> u8 {
        0
    }

    fn limits(&self) -> Limits {
        periodic_limits(1, 0)
    }
}
