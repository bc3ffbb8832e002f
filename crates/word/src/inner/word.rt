// A range word taken apart.
ghost use Rattle.std.specs.Prelude.{◌≡◌, ◌<◌, ◌≤◌};
ghost use Rattle.word.specs.Word.{words, start_tile, end_tile};
ghost use Rattle.word.specs.Member.{Real};
ghost use Rattle.word.specs.Spans.{cells_of};
ghost use Rattle.word.specs.Taking.{TakesWord};

use super::span::{Span, end_cell, half_turn, no_cells, start_cell};
use call::reason::Reason;
use posit::inner::format::Format;
use posit::inner::power::power;

pub fn start_tile(f: Format, w: u64) -> u32
    requires { w < words f.n }
    ensures { result ≡ start_tile f.n w }
{
    (w / power(f.n + 1)) as u32
}

pub fn end_tile(f: Format, w: u64) -> u32
    requires { w < words f.n }
    ensures { result ≡ end_tile f.n w }
{
    (w % power(f.n + 1)) as u32
}

// A word whose last cell comes before its first is empty where both its tiles are the same, and holds infinity where they are not. Its cells hang on the
// width alone, so that any exponent size serves.
pub fn take_word(n: u32, w: u64) -> Result<Span, Reason>
    requires { (3 ≤ n) × (n ≤ 16) }
    ensures { TakesWord n w result }
{
    let f = Format { n, es: 0 };
    if power(2 * n + 2) <= w {
        return Err(Reason::TooLarge);
    }
    let start = start_tile(f, w);
    let end = end_tile(f, w);
    // a closed NaR comes to 0 by half a turn, which the cells take too
    if half_turn(f, start) == 0 || half_turn(f, end) == 0 {
        return Err(Reason::HoldsInfinity);
    }
    let lo = start_cell(f, start);
    let hi = end_cell(f, end);
    if lo <= hi {
        return Ok(Span { lo, hi });
    }
    if start == end {
        return Ok(no_cells(n));
    }
    Err(Reason::HoldsInfinity)
}

// The cells of a real range's members, without the tests.
pub fn cells_of(f: Format, w: u64) -> Span
    requires { Real f.n w }
    ensures { result ≡ cells_of f.n w }
{
    let lo = start_cell(f, start_tile(f, w));
    let hi = end_cell(f, end_tile(f, w));
    if lo <= hi {
        return Span { lo, hi };
    }
    no_cells(f.n)
}
