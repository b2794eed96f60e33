// A day of an assembly's own figures.
ghost use Rattle.assemblies.specs.Kitting.{Assembled};

use crate::kits::Kits;
use supplier::TERM;

impl Kits {
    /// Enters the order, takes in the parts received on both sides, and uses those of the kits that are due.
    pub(crate) fn assemble(&mut self, q: u64, from_left: u64, from_right: u64, due: u64)
        ensures { Assembled self.old q from_left from_right due self.new }
    {
        let _ = self.orders.take(q);
        self.days = (self.days + 1).min(TERM);
        self.left.keep(from_left, due);
        self.right.keep(from_right, due);
        self.delivered = due;
    }
}
