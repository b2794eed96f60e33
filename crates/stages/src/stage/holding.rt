// What a stage holds.
ghost use Rattle.std.specs.Prelude.{◌≡◌};
ghost use Rattle.figures.specs.Days.{window};
ghost use Rattle.supplier.specs.Books.{orders_of};
ghost use Rattle.stages.specs.Stages.{Tied};
ghost use Rattle.stages.specs.Conservation.{StageConserves};

use crate::goods::Goods;
use crate::stage::Staging;
use supplier::Supplier;

impl<S: Supplier> Staging<S> {
    /// The pieces on the shelf and in process.
    pub fn goods(&self) -> Goods
        ensures shelf { result.on_shelf ≡ self.now.own.shelf }
        ensures process { result.in_process ≡ window self.now.own.process (orders_of self.now.own.works) }
        ensures conserves { Tied (S.meaning self.now.below) self.now.own → StageConserves (S.meaning self.now.below) self.now.own result }
    {
        Goods {
            on_shelf: self.own.shelf,
            in_process: self.own.works.sum(self.own.process).unwrap_or(0),
        }
    }
}
