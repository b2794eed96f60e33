// What an assembly holds.
ghost use Rattle.std.specs.Prelude.{◌≡◌};
ghost use Rattle.assemblies.specs.Assemblies.{Joined};
ghost use Rattle.assemblies.specs.Conservation.{AssemblyConserves};

use crate::assembly::Assembling;
use crate::parts::Parts;
use supplier::Supplier;

impl<L: Supplier, R: Supplier> Assembling<L, R> {
    /// The parts that wait: received from one side, and not in a kit yet.
    // Of valid sides: the tie alone does not say that their quotes are within the horizon.
    pub fn waiting(&self) -> Parts
        ensures left { result.left ≡ self.now.own.left.waiting }
        ensures right { result.right ≡ self.now.own.right.waiting }
        ensures conserves { L.valid self.now.left → R.valid self.now.right → Joined (L.meaning self.now.left) (R.meaning self.now.right) self.now.own
            → AssemblyConserves (L.meaning self.now.left) (R.meaning self.now.right) self.now.own result }
    {
        Parts {
            left: self.own.left.waiting,
            right: self.own.right.waiting,
        }
    }
}
