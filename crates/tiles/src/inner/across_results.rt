// Products and quotients of a range from a posit below 0 to one above 0 with a plain one, and the start of their sums: each end of the answer is the cell of one
// exact result.
ghost use Rattle.std.specs.Prelude.{◌≡◌, ◌+◌, ◌^◌, ◌<◌, ◌≤◌, true};
ghost use Rattle.tiles.specs.Across.{is_across};
ghost use Rattle.tiles.specs.Scaled.{operation_of};
ghost use Rattle.cell.specs.Cells.{sum_start, tile_with_sign};
ghost use Rattle.word.specs.Computed.{answer_of};
ghost use Rattle.tiles.specs.Plain.{is_plain, PlainStart};
ghost use Rattle.word.specs.Spans.{start_cell, start_tile_at, turned_tile};
ghost use Rattle.word.specs.Word.{tiles};

use super::plain::OPEN_ZERO;
use super::plain_results::results_end;
use super::right::RightTiles;
use code::inner::form::code_of;
use code::inner::step::step_of;
use code::inner::sum::difference;
use posit::inner::format::Format;
use posit::inner::power::power32;
use word::inner::span::joined;
use word::inner::word::{end_tile, start_tile};

// A tile with its posit negated, where that is not 0.
fn negated_tile(f: Format, tile: u32) -> u32
    requires { (2 ≤ tile) × (tile < tiles f.n) }
    ensures { result ≡ turned_tile f.n tile }
{
    2 * power32(f.n) - tile + 2 * (tile % 2)
}

// The start tile of a number other than 0 from the step of its size among the posits: below 0 it is that far before the tile of 0.
fn signed_tile(f: Format, negative: bool, step: u32) -> u32
    requires { step < 2 ^ f.n }
    ensures { result ≡ tile_with_sign f.n negative step }
{
    let below = 2 * power32(f.n) - step;
    if negative {
        return below;
    }
    step
}

// The start tile of the sums from the tile s, of a posit below 0, and the tile t on: beyond an open 0 they start at s, open, and else at the exact sum of
// both posits, open where either tile is.
pub fn across_start(f: Format, s: u32, t: u32) -> u32
    requires { (2 ^ f.n + 2 ≤ s) × (s < tiles f.n) × (PlainStart f.n t) }
    ensures { result ≡ start_tile_at f.n (sum_start f.n f.es (start_cell f.n s) (start_cell f.n t)) }
{
    if t == OPEN_ZERO {
        return s | 1;
    }
    let open = (s | t) % 2;
    // the size of the posit below 0, whether its tile is open or not
    let p = (2 * power32(f.n) + 1 - s) / 2;
    let q = t / 2;
    if p == q {
        return open;
    }
    let size = difference(f, code_of(f, q), code_of(f, p));
    signed_tile(f, q < p, step_of(f, size)) | open
}

// The products or quotients of a word across 0 and one above it: both ends are results with the same tile of b, and the first is the negative of that of the
// sizes.
pub fn across_results<S: RightTiles>(f: Format, a: u64, b: u64) -> u64
    requires { (is_across f.n a ≡ true) × (is_plain f.n b ≡ true) }
    ensures { result ≡ answer_of f.n f.es (operation_of S.divides) a b }
{
    let s = negated_tile(f, start_tile(f, a));
    let last = S::last_tile(f, b);
    let below = results_end::<S>(f, s, last);
    let above = results_end::<S>(f, end_tile(f, a), last);
    joined(f, negated_tile(f, below), above)
}
