// A layer that rests: what a making gives that its question refuses.
ghost use Rattle.supplier.specs.Numbers.{named};
ghost use Rattle.layers.specs.Makings.{Rests};

use crate::layer::Layer;
use supplier::{Kind, Supplier, kept_number};
use vendors::Idle;

impl<W: Supplier, B> Layer<W, B> {
    /// An idle layer of this number and kind over what it never calls.
    pub fn resting(number: u64, kind: Kind, below: B) -> Self
        ensures { Rests kind (named number) below result }
    {
        Layer::Idle(Idle::new(kept_number(number), kind), below)
    }
}
