// What a stage has of its goods.
/// The pieces on a stage's shelf, and those that it works on.
#[derive(Clone, Copy, PartialEq, Eq, Debug)]
pub struct Goods {
    pub on_shelf: u64,
    pub in_process: u64,
}
