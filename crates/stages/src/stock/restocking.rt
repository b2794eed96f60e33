// A stage's shelf over a day.
ghost use Rattle.stages.specs.Stocks.{Restocked};

use crate::stock::Stock;

impl Stock {
    /// Takes in what was received, puts what is finished on the shelf, and only then takes the delivery off it.
    pub(crate) fn restock(&mut self, received: u64, due: u64)
        ensures { Restocked self.old received due self.new }
    {
        let finished = self.works.due(self.process, received).unwrap_or(0);
        let _ = self.works.take(received);
        self.shelf = self.shelf.saturating_add(finished).saturating_sub(due);
        self.delivered = due;
    }
}
