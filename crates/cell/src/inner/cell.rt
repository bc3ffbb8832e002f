// The cell of an exact number: the posit that it is, or the gap between posits in which it lies.
ghost use Rattle.std.specs.Prelude.{◌≡◌, Bool, ◌+◌, ◌-◌, ◌*◌, ◌^◌, ◌<◌, ◌≤◌};
ghost use Rattle.exact.specs.Fraction.{Fraction};
ghost use Rattle.word.specs.Numbered.{pattern_at};
ghost use Rattle.word.specs.Spans.{top_cell};
ghost use Rattle.cell.specs.Cells.{CellEach, cell_from, cell_with_sign};

use posit::inner::choose::chosen;
use posit::inner::format::Format;
use posit::inner::locate::locate;
use posit::inner::magnitude::Magnitude;
use posit::inner::power::power32;
use word::inner::span::top_cell;

// The cell of a number above 0 from its floor among the patterns one bit longer: the number lies in the gap above an even pattern that it
// is not itself, and every odd pattern lies in a gap.
fn cell_from(f: Format, pattern: u32, exact: bool) -> u32
    requires { pattern < 2 ^ f.n }
    ensures { result ≡ cell_from f.n pattern exact }
{
    power32(f.n) - 1 + pattern + (1 - pattern % 2) * (1 - exact as u32)
}

// The same cell, or that of the negative.
pub fn with_sign(n: u32, negative: bool, cell: u32) -> u32
    requires { (n ≤ 16) × (cell ≤ top_cell n) }
    ensures { result ≡ cell_with_sign n negative cell }
{
    chosen(negative as u32, cell, top_cell(n) - cell)
}

// The cell of a number above 0 from its step among the posits.
pub fn above_zero(f: Format, step: u32) -> u32
    requires { step < 2 ^ f.n }
    ensures { result ≡ 2 ^ f.n - 1 + step }
{
    power32(f.n) - 1 + step
}

// The cell of a magnitude with a sign.
pub fn cell_of(f: Format, negative: bool, x: Magnitude) -> u32
    ensures { CellEach f.n f.es negative x result }
{
    let at = locate(f, x);
    with_sign(f.n, negative, cell_from(f, at.pattern, at.exact & !x.lost))
}

// The posit numbered k, from the lowest finite one up.
pub fn posit_at(f: Format, k: u32) -> u32
    requires { 2 * k < top_cell f.n }
    ensures { result ≡ pattern_at f.n k }
{
    (k + power32(f.n - 1) + 1) % power32(f.n)
}
