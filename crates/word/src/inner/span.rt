// A range as an interval of cells, and back.
ghost use Rattle.std.specs.Prelude.{◌≡◌, ◌≢◌, ◌+◌, ◌%◌, ◌^◌, ◌<◌, ◌≤◌};
ghost use Rattle.word.specs.Word.{tiles, closed_nar, word_of};
ghost use Rattle.word.specs.Spans.{top_cell, no_cells, mirrored, start_cell, end_cell, start_tile_at, end_tile_at, Cells, word_at};

use posit::inner::format::Format;
use posit::inner::power::{power, power32};

// The cells from lo to hi; none where lo is above hi. No Option of a span: the hull of two takes the least and the greatest cell without a test.
#[derive(Clone, Copy, Debug, PartialEq, Eq)]
pub struct Span {
    pub lo: u32,
    pub hi: u32,
}

// The gap above the largest posit.
pub fn top_cell(n: u32) -> u32
    requires { n ≤ 16 }
    ensures { result ≡ top_cell n }
{
    2 * power32(n) - 2
}

pub fn no_cells(n: u32) -> Span
    requires { n ≤ 16 }
    ensures { result ≡ no_cells n }
{
    Span {
        lo: top_cell(n) + 1,
        hi: 0,
    }
}

// Half a turn of their circle puts the tiles in the order of their posits: the closed NaR comes to 0 and the open one to 1. Another half
// turn puts them back.
pub fn half_turn(f: Format, tile: u32) -> u32
    requires { tile ≤ tiles f.n + 1 }
    ensures { result ≡ (tile + 2 ^ f.n) % tiles f.n }
{
    let half = power32(f.n);
    (tile + half) % (2 * half)
}

// The first cell after a start tile.
pub fn start_cell(f: Format, tile: u32) -> u32
    requires { (tile < tiles f.n) × (tile ≢ closed_nar f.n) }
    ensures { result ≡ start_cell f.n tile }
{
    half_turn(f, tile) - 1
}

// The last cell before an end tile; before an open NaR it is the topmost, by going round.
pub fn end_cell(f: Format, tile: u32) -> u32
    requires { (tile < tiles f.n) × (tile ≢ closed_nar f.n) }
    ensures { result ≡ end_cell f.n tile }
{
    let all = 2 * power32(f.n);
    let last = half_turn(f, tile);
    (last + all - 1 - 2 * (last % 2)) % all
}

// The start tile whose first cell is this one.
fn start_tile_at(f: Format, cell: u32) -> u32
    requires { cell ≤ top_cell f.n }
    ensures { result ≡ start_tile_at f.n cell }
{
    half_turn(f, cell + 1)
}

// The end tile whose last cell is this one.
fn end_tile_at(f: Format, cell: u32) -> u32
    requires { cell ≤ top_cell f.n }
    ensures { result ≡ end_tile_at f.n cell }
{
    half_turn(f, cell + 3 - 2 * (cell % 2))
}

// The word of a start and an end tile.
pub fn joined(f: Format, start: u32, end: u32) -> u64
    requires { (start < tiles f.n) × (end < tiles f.n) }
    ensures { result ≡ word_of f.n start end }
{
    start as u64 * power(f.n + 1) + end as u64
}

// The word of an interval of cells.
pub fn word_of(f: Format, s: Span) -> u64
    requires { Cells f.n s }
    ensures { result ≡ word_at f.n s }
{
    if s.hi < s.lo {
        return joined(f, 1, 1);
    }
    joined(f, start_tile_at(f, s.lo), end_tile_at(f, s.hi))
}

// The cells of the negatives.
pub fn mirror(n: u32, s: Span) -> Span
    requires { (n ≤ 16) × (Cells n s) }
    ensures { result ≡ mirrored n s }
{
    if s.hi < s.lo {
        return no_cells(n);
    }
    let top = top_cell(n);
    Span {
        lo: top - s.hi,
        hi: top - s.lo,
    }
}
