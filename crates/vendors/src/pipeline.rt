// The terms of a pipeline vendor. Its question and making stand in pipeline/.
ghost use Rattle.std.specs.Prelude.{◌≤◌};
ghost use Rattle.figures.specs.Days.{horizon};
ghost use Rattle.supplier.specs.declared.line.Kind.TheVariants as kind;
ghost use Rattle.vendors.specs.Periods.{daily, most_daily};

use crate::periods::periodic_limits;
use crate::terms::Terms;
use supplier::{Kind, Limits};

pub mod making;

/// Each order is delivered after the lead, and at most `max` pieces are taken for each day of a window.
#[derive(Clone, Copy)]
pub struct PipelineTerms {
    lead: u8,
    max: u64,
    ghost near: { lead ≤ horizon },
    ghost few: { max ≤ most_daily },
}

impl Terms for PipelineTerms {
    ghost kind = { λ _. kind.Pipeline };

    ghost quote = { λ t. t.lead };

    ghost limit = { λ t. daily t.max };

    fn kind(&self) -> Kind {
        Kind::Pipeline
    }

    fn quote(&self) -> u8 {
        self.lead
    }

    fn limits(&self) -> Limits {
        periodic_limits(1, self.max)
    }
}
