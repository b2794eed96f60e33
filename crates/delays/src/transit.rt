// The own figures of a delay.
ghost use Rattle.std.specs.Prelude.{◌≤◌};
ghost use Rattle.figures.specs.Days.{horizon};

use supplier::Book;

/// What a delay received on the last days, and what it did on the last of them.
#[derive(Drop)]
pub struct Transit {
    pub number: u16,
    pub delay: u8,
    pub received: Book,
    pub ordered: u64,
    pub delivered: u64,
    ghost brief: { delay ≤ horizon },
}
