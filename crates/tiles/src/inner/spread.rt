// Operations by tiles: a range above 0 or across it on the left, and one above 0 on the right.
ghost use Rattle.std.specs.Prelude.{◌≡◌, ◌/◌, ◌%◌, ◌^◌, ◌≤◌, true, ◌==◌, nat_lt};
ghost use Rattle.word.specs.Word.{start_tile};
ghost use Rattle.word.specs.Computed.{answer_of};
ghost use Rattle.tiles.specs.Plain.{is_plain};
ghost use Rattle.tiles.specs.Scaled.{operation_of};
ghost use Rattle.tiles.specs.Spread.{is_spread};

use super::across_results::{across_results, across_start};
use super::plain::FIRST_PLACE;
use super::plain_results::{plain_results, sum_end_tile, sum_start_tile};
use super::right::RightTiles;
use posit::inner::format::Format;
use posit::inner::power::power;
use word::inner::span::joined;
use word::inner::word::{end_tile, start_tile};

// Below 2^63 exactly where a word is a range above 0 or across it, with limits. The start is counted from 0 with a sign; the numbers joined say, in this order, that
// the end lies behind 0, not before the start, that the start stands at neither tile of NaR, nor at a closed 0, and that the end lies before NaR.
pub fn spread_fault(n: u32, w: u64) -> u64
    requires { (3 ≤ n) × (n ≤ 16) }
    ensures { nat_lt result (2 ^ 63) ≡ is_spread n w }
{
    let half = power(n);
    let all = power(n + 1);
    let tile = w / all;
    let start = (tile ^ half).wrapping_sub(half);
    let open = w % 2;
    // the end tile, less two where it is open: below 0 for an open 0
    let end = (w % all - open).wrapping_sub(open);
    end.wrapping_sub(1)
        | end.wrapping_sub(start)
        | start.wrapping_add(half - 2)
        | tile.wrapping_sub(1)
        | (w << (FIRST_PLACE - n))
}

// Whether the start lies below 0: the first bit of its tile is its posit's sign.
fn starts_below(f: Format, w: u64) -> bool
    ensures { result ≡ (start_tile f.n w / 2 ^ f.n % 2 == 1) }
{
    w / power(f.n + 1) / power(f.n) % 2 == 1
}

// From the sum of both starts to the sum of both ends.
pub fn spread_sum(f: Format, a: u64, b: u64) -> u64
    requires { (is_spread f.n a ≡ true) × (is_plain f.n b ≡ true) }
    ensures { result ≡ answer_of f.n f.es 0 a b }
{
    let s = start_tile(f, a);
    let t = start_tile(f, b);
    let end = sum_end_tile(f, end_tile(f, a), end_tile(f, b));
    if starts_below(f, a) {
        return joined(f, across_start(f, s, t), end);
    }
    joined(f, sum_start_tile(f, s, t), end)
}

// The products or quotients of such words.
pub fn spread_results<S: RightTiles>(f: Format, a: u64, b: u64) -> u64
    requires { (is_spread f.n a ≡ true) × (is_plain f.n b ≡ true) }
    ensures { result ≡ answer_of f.n f.es (operation_of S.divides) a b }
{
    if starts_below(f, a) {
        return across_results::<S>(f, a, b);
    }
    plain_results::<S>(f, a, b)
}
