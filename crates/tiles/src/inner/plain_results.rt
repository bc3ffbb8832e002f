// Sums, products and quotients of two ranges above 0 with an upper limit: each end of the answer is the cell of one exact result, unless a range
// starts at an open 0.
ghost use Rattle.std.specs.Prelude.{◌≡◌, ◌+◌, ◌-◌, ◌*◌, ◌/◌, ◌%◌, ◌^◌, ◌≤◌, true};
ghost use Rattle.posit.specs.Parts.{chosen_by};
ghost use Rattle.cell.specs.Cells.{sum_start, sum_end};
ghost use Rattle.word.specs.Computed.{answer_of};
ghost use Rattle.tiles.specs.Plain.{is_plain, PlainStart, PlainEnd};
ghost use Rattle.tiles.specs.Scaled.{operation_of, edge_at};
ghost use Rattle.signs.specs.Signs.{first_cell, last_cell};
ghost use Rattle.word.specs.Spans.{top_cell, start_cell, end_cell, start_tile_at, end_tile_at};

use super::plain::OPEN_ZERO;
use super::right::RightTiles;
use cell::inner::add::total_cell;
use posit::inner::format::Format;
use posit::inner::power::power32;
use signs::inner::scaling::Scaling;
use word::inner::span::joined;
use word::inner::word::{end_tile, start_tile};

// The start tile of the results from the tiles s and t on, by the cell of their exact result: a posit where both are closed and the result is
// one, else open.
fn start_tile_from(f: Format, s: u32, t: u32, cell: u32) -> u32
    requires { (2 ^ f.n ≤ cell) × (cell ≤ top_cell f.n) }
    ensures { result ≡ start_tile_at f.n (chosen_by ((1 - s % 2) * (1 - t % 2)) (2 * ((cell + 1) / 2)) cell) }
{
    let step = cell + 1 - power32(f.n);
    let open = (s | t) % 2;
    step | open
}

// The end tile of the results up to the tiles s and t: beyond a gap it stands on the next posit.
pub fn end_tile_from(n: u32, s: u32, t: u32, cell: u32) -> u32
    requires { (3 ≤ n) × (n ≤ 16) × (2 ^ n ≤ cell) × (cell ≤ top_cell n) }
    ensures { result ≡ end_tile_at n (chosen_by ((1 - s % 2) * (1 - t % 2)) (2 * (cell / 2)) cell) }
{
    let step = cell + 1 - power32(n);
    let open = (s | t) % 2;
    (step + 2 * (step % 2)) | open
}

// The start tile of the sums from the tiles s and t on: beyond an open 0 they start at the other tile, open.
pub fn sum_start_tile(f: Format, s: u32, t: u32) -> u32
    requires { (PlainStart f.n s) × (PlainStart f.n t) }
    ensures { result ≡ start_tile_at f.n (sum_start f.n f.es (start_cell f.n s) (start_cell f.n t)) }
{
    if s == OPEN_ZERO {
        return t | 1;
    }
    if t == OPEN_ZERO {
        return s | 1;
    }
    start_tile_from(f, s, t, total_cell(f, s / 2, t / 2))
}

// The end tile of the sums up to the tiles u and v.
pub fn sum_end_tile(f: Format, u: u32, v: u32) -> u32
    requires { (PlainEnd f.n u) × (PlainEnd f.n v) }
    ensures { result ≡ end_tile_at f.n (sum_end f.n f.es (end_cell f.n u) (end_cell f.n v)) }
{
    end_tile_from(f.n, u, v, total_cell(f, u / 2, v / 2))
}

// The start tile of the products or quotients from the tile s and the right word's tile t on: an open 0 where either is.
#[inline]
fn results_start<S: Scaling>(f: Format, s: u32, t: u32) -> u32
    requires { (PlainStart f.n s) × (PlainStart f.n t) }
    ensures { result ≡ start_tile_at f.n (first_cell f.n f.es S.divides (edge_at s) (edge_at t)) }
{
    if s == OPEN_ZERO || t == OPEN_ZERO {
        return OPEN_ZERO;
    }
    start_tile_from(f, s, t, S::cell(f, s / 2, t / 2))
}

// The end tile of such results up to the tile u and the right word's tile t: an open NaR, no limit, where t is an open 0.
#[inline]
pub fn results_end<S: Scaling>(f: Format, u: u32, t: u32) -> u32
    requires { (PlainEnd f.n u) × (PlainStart f.n t) }
    ensures { result ≡ end_tile_at f.n (last_cell f.n f.es S.divides (edge_at u) (edge_at t)) }
{
    if t == OPEN_ZERO {
        return power32(f.n) + 1;
    }
    end_tile_from(f.n, u, t, S::cell(f, u / 2, t / 2))
}

// The products or quotients of two words: a product goes from both starts to both ends, a quotient from the start over the end to the end over the start.
pub fn plain_results<S: RightTiles>(f: Format, a: u64, b: u64) -> u64
    requires { (is_plain f.n a ≡ true) × (is_plain f.n b ≡ true) }
    ensures { result ≡ answer_of f.n f.es (operation_of S.divides) a b }
{
    let start = results_start::<S>(f, start_tile(f, a), S::first_tile(f, b));
    let end = results_end::<S>(f, end_tile(f, a), S::last_tile(f, b));
    joined(f, start, end)
}
