// One of the two parts of a kit. What a day does to it stands in part/.
ghost use Rattle.std.specs.Prelude.{◌≤◌};

pub mod keeping;

/// A part of a kit: how many of it a kit takes, and how many wait for one.
#[derive(Drop)]
pub struct Part {
    pub per_kit: u64,
    pub waiting: u64,
    ghost some: { 1 ≤ per_kit },
    ghost few: { per_kit ≤ 100 },
}
