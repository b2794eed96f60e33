// The book of the last orders. Its methods stand in the files of book/.
ghost use Rattle.std.specs.Prelude.{◌≡◌, ℕ, ◌<◌, ◌≤◌, length, slice_index};
ghost use Rattle.figures.specs.Days.{horizon, most};

use figures::HORIZON;

pub mod broken;
pub mod entries;

/// The orders of the last days taken, as many as the horizon has days; 0 before day 1.
/// They lie in a ring: the newest at `newest`, the one before it at the next place, and round to the start.
/// The ring is an array of its own, since a book uses no heap, and the library's ring lies on it.
#[derive(Drop)]
pub struct Book {
    ring: [u64; HORIZON],
    newest: usize,
    ghost long: { length ring ≡ horizon },
    ghost inside: { newest < horizon },
    ghost small: { (i : ℕ) → slice_index ring i ≤ most },
}
