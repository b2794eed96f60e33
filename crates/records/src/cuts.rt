// Bytes that are cut at the first of a byte.
ghost use Rattle.std.specs.Prelude.{◌≡◌, ◌∷◌, ◌++◌, MatchOption};
ghost use Rattle.records.specs.Words.{Lacks};

/// What stands before the first byte of this value, and what stands after it; none after where there is no such byte.
pub(crate) fn cut(bytes: &[u8], at: u8) -> (&[u8], Option<&[u8]>)
    ensures lacks { Lacks at result.0.now }
    ensures parts { MatchOption result.1 (bytes.now ≡ result.0.now) (λ rest. bytes.now ≡ result.0.now ++ at ∷ rest.now) }
{
    match bytes.iter().position(|byte| *byte == at) {
        Some(i) => (&bytes[..i], Some(&bytes[i + 1..])),
        None => (bytes, None),
    }
}
