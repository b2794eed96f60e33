// The bounds that every crate shares.
ghost use Rattle.std.specs.Prelude.{◌≡◌};
ghost use Rattle.figures.specs.Days.{near};

/// How many days quotes, windows and books reach; `horizon` in specs/Days.antt.
pub const HORIZON: usize = 63;

/// The most pieces of any limit, bound or base stock; `most` in specs/Days.antt.
pub const MOST_PIECES: u64 = 1_000_000_000;

/// So many days, where the horizon reaches that far.
pub fn within_horizon(days: u8) -> Option<usize>
    ensures { result ≡ near days days }
{
    let days = usize::from(days);
    (days <= HORIZON).then_some(days)
}
