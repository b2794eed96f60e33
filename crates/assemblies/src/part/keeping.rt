// What kits take of a part, and what waits of it.
ghost use Rattle.std.specs.Prelude.{◌≡◌, ◌-◌, ◌*◌, ◌^◌, min};
ghost use Rattle.assemblies.specs.Kitting.{Kept};

use crate::part::Part;

impl Part {
    /// The parts that so many kits take.
    pub(crate) fn wanted(&self, kits: u64) -> u64
        ensures { result ≡ min (self.now.per_kit * kits) (2 ^ 64 - 1) }
    {
        self.per_kit.saturating_mul(kits)
    }

    /// Takes in the parts received, and uses those of the kits.
    pub(crate) fn keep(&mut self, received: u64, kits: u64)
        ensures { Kept self.old received kits self.new }
    {
        let used = self.wanted(kits);
        self.waiting = self.waiting.saturating_add(received).saturating_sub(used);
    }
}
