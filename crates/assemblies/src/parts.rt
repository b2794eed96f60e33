// The parts that wait in an assembly.
/// Parts of the left and of the right side, each in its own pieces.
#[derive(Clone, Copy, PartialEq, Eq, Debug)]
pub struct Parts {
    pub left: u64,
    pub right: u64,
}
