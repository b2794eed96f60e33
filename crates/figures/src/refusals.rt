// The refusals that the figures of an envelope, a vendor or a layer can get.
ghost use Rattle.std.specs.Prelude.{◌≡◌};
ghost use Rattle.figures.specs.Refusals.{number};

/// Why figures are refused. Places count the figures from 1, from the left.
#[derive(Clone, Copy, PartialEq, Eq, Debug)]
pub enum Refusal {
    /// 12: the figure at this place is outside its range, and none before it is.
    OutOfRange(usize),
    /// 13: a supplier below has taken a day.
    Started,
    /// 14: a delay's quote or a stage's times do not fit.
    Misfit,
    /// 15: a bound of the envelope is above the limit below.
    AboveLimit,
    /// 16: the base stock is below the envelope's bound of the net time.
    LowBase,
    /// 21: the figure at this place breaks a law of envelopes, and none before it does.
    LawBroken(usize),
}

impl Refusal {
    /// The number by which a refusal is printed.
    pub fn number(self) -> u8
        ensures { result ≡ number self }
    {
        match self {
            Refusal::OutOfRange(_) => 12,
            Refusal::Started => 13,
            Refusal::Misfit => 14,
            Refusal::AboveLimit => 15,
            Refusal::LowBase => 16,
            Refusal::LawBroken(_) => 21,
        }
    }
}
