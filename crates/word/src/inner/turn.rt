// The range of the negatives: its ends are turned round, each posit negated by wrapping subtraction.
ghost use Rattle.std.specs.Prelude.{◌≡◌, ◌%◌, ◌<◌, ◌≤◌};
ghost use Rattle.word.specs.Word.{tiles, open_nar};
ghost use Rattle.word.specs.Member.{Real};
ghost use Rattle.word.specs.Smallest.{IsAnswer};
ghost use Rattle.word.specs.Calls.{Negative, Tells};
ghost use Rattle.word.specs.Spans.{turned_tile};

use super::span::joined;
use super::word::{end_tile, start_tile};
use posit::inner::format::Format;
use posit::inner::power::{negated, power32};

// A tile with its posit negated.
fn turned_tile(f: Format, tile: u32) -> u32
    requires { tile < tiles f.n }
    ensures { result ≡ turned_tile f.n tile }
{
    2 * negated(f.n, tile / 2) + tile % 2
}

// Whether a real range with these ends is empty: the same posit, open at both.
fn is_empty(f: Format, start: u32, end: u32) -> bool
    ensures { Tells ((start ≡ end) × (start % 2 ≡ 1) × (start ≡ open_nar f.n → ⊥)) result }
{
    start == end && start % 2 == 1 && start != power32(f.n) + 1
}

// The negation of a real range; the canonical empty word for every empty one.
pub fn turned(f: Format, a: u64) -> u64
    requires { Real f.n a }
    ensures { IsAnswer f.n f.es (Negative f.n f.es a) result }
{
    let start = start_tile(f, a);
    let end = end_tile(f, a);
    if is_empty(f, start, end) {
        return joined(f, 1, 1);
    }
    joined(f, turned_tile(f, end), turned_tile(f, start))
}
