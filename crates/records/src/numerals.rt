// Numbers as a file writes them.
ghost use Rattle.std.specs.Prelude.{MatchOption};
ghost use Rattle.records.specs.Numerals.{Writes, IsNoNumber};

/// The most digits of a number; `most_digits` in specs/Numerals.antt.
const MOST_DIGITS: usize = 13;

/// The number that a word writes: 1 to 13 digits with no needless leading 0; none where it writes no number.
pub fn number(word: &[u8]) -> Option<u64>
    ensures { MatchOption result (IsNoNumber word.now) (Writes word.now) }
{
    if word.len() > MOST_DIGITS {
        return None;
    }
    if let [] | [b'0', _, ..] = word {
        return None;
    }
    let mut n = 0;
    for digit in word {
        if !digit.is_ascii_digit() {
            return None;
        }
        n = 10 * n + u64::from(*digit - b'0');
    }
    Some(n)
}
