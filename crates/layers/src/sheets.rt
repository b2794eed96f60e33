// The lines of a layer's sheet: its own, and then those below.
ghost use Rattle.std.specs.Prelude.{◌≡◌, ◌+◌, ◌≤◌, min, None};
ghost use Rattle.supplier.specs.declared.line.Line.{Line as Row};
ghost use Rattle.std.specs.List.{slice_get};
ghost use Rattle.supplier.specs.Meaning.{most_lines};
ghost use Rattle.layers.specs.Sheets.{topped};

use supplier::{AlwaysValid, Line, MOST_LINES, Supplier};

/// The lines that a layer tells: its own, and those below, up to the most lines.
pub fn lines_over(below: usize) -> usize
    ensures { result ≡ min (below + 1) most_lines }
{
    below.saturating_add(1).min(MOST_LINES)
}

/// The line with i lines above it on the sheet of a layer over one supplier, where that is a line below the layer's own.
pub fn line_under<S: Supplier>(below: &S, i: usize) -> Option<Line>
    ensures none { i ≡ 0 → result ≡ None }
    ensures cut { most_lines ≤ i → result ≡ None }
    ensures told { S.valid below.now → (own : Row) → 1 ≤ i → result ≡ slice_get (topped own (S.meaning below.now).sheet) i }
{
    let place = i.checked_sub(1)?;
    if i < MOST_LINES {
        below.line(place)
    } else {
        None
    }
}

/// The same over a supplier that is always valid, and so with no premise.
pub fn line_below<S: AlwaysValid>(below: &S, i: usize) -> Option<Line>
    ensures none { i ≡ 0 → result ≡ None }
    ensures cut { most_lines ≤ i → result ≡ None }
    ensures told { (own : Row) → 1 ≤ i → result ≡ slice_get (topped own (S.meaning below.now).sheet) i }
{
    line_under(below, i)
}
