// The sum and the difference of two real ranges.
ghost use Rattle.std.specs.Prelude.{◌≡◌, ◌+◌, ◌*◌, ◌<◌, ◌≤◌};
ghost use Rattle.exact.specs.Fraction.{◌+ᶠ◌};
ghost use Rattle.posit.specs.Format as Spec;
ghost use Rattle.posit.specs.Format.{Finite};
ghost use Rattle.posit.specs.Value.{value};
ghost use Rattle.word.specs.Numbered.{number_of};
ghost use Rattle.word.specs.Member.{Real};
ghost use Rattle.word.specs.Spans.{top_cell, cells_of, mirrored, Cells, word_at};
ghost use Rattle.word.specs.Computed.{cell_of, answer_of};
ghost use Rattle.cell.specs.Cells.{sum_start, sum_end, sum_cells};

use super::cell::{above_zero, posit_at, with_sign};
use super::signed::signed_form;
use code::inner::form::code_of;
use code::inner::step::step_of;
use code::inner::sum::{signed_sum, total};
use posit::inner::format::Format;
use posit::inner::power::power32;
use posit::inner::signed::Signed;
use word::inner::span::{Span, joined, top_cell, word_of};
use word::inner::turn::turned;
use word::inner::word::cells_of;

// The cell of a finite posit alone.
fn posit_cell(f: Format, p: u32) -> u32
    requires { Finite f.n p }
    ensures { result ≡ 2 * number_of f.n p + 1 }
{
    2 * ((p + power32(f.n - 1) - 1) % power32(f.n)) + 1
}

// The cell of the exact sum of two finite posits.
fn sum_cell(f: Format, p: u32, q: u32) -> u32
    requires { (Finite f.n p) × (Finite f.n q) }
    ensures { result ≡ cell_of f.n f.es (value f.n f.es p +ᶠ value f.n f.es q) }
{
    if p == 0 {
        return posit_cell(f, q);
    }
    if q == 0 {
        return posit_cell(f, p);
    }
    let x = signed_form(f, p);
    let y = signed_form(f, q);
    match signed_sum(f, x, y) {
        None => power32(f.n) - 1,
        Some(Signed { negative, size }) => with_sign(
            f.n,
            negative,
            above_zero(f, step_of(f, size)),
        ),
    }
}

// The same of two posits above 0.
pub fn total_cell(f: Format, p: u32, q: u32) -> u32
    requires { (0 < p) × (p < Spec.nar f.n) × (0 < q) × (q < Spec.nar f.n) }
    ensures { result ≡ cell_of f.n f.es (value f.n f.es p +ᶠ value f.n f.es q) }
{
    above_zero(f, step_of(f, total(f, code_of(f, p), code_of(f, q))))
}

// The first cell of all sums of a number from the start cell x up and one from y up: a posit where both are, else a gap.
fn sum_start(f: Format, x: u32, y: u32) -> u32
    requires { (x ≤ top_cell f.n) × (y ≤ top_cell f.n) }
    ensures { result ≡ sum_start f.n f.es x y }
{
    if x == 0 {
        return 0;
    }
    if y == 0 {
        return 0;
    }
    let cell = sum_cell(f, posit_at(f, (x - 1) / 2), posit_at(f, (y - 1) / 2));
    let gap = 1 - x % 2 * (y % 2);
    cell + cell % 2 * gap
}

// The last cell of all sums of a number up to the end cell x and one up to y.
fn sum_end(f: Format, x: u32, y: u32) -> u32
    requires { (x ≤ top_cell f.n) × (y ≤ top_cell f.n) }
    ensures { result ≡ sum_end f.n f.es x y }
{
    let top = top_cell(f.n);
    if x == top {
        return top;
    }
    if y == top {
        return top;
    }
    let cell = sum_cell(f, posit_at(f, x / 2), posit_at(f, y / 2));
    let gap = 1 - x % 2 * (y % 2);
    cell - cell % 2 * gap
}

// The sum of two ranges by their cells.
pub fn add_cells(f: Format, x: Span, y: Span) -> u64
    requires { (Cells f.n x) × (Cells f.n y) }
    ensures { result ≡ word_at f.n (sum_cells f.n f.es x y) }
{
    if x.hi < x.lo {
        return joined(f, 1, 1);
    }
    if y.hi < y.lo {
        return joined(f, 1, 1);
    }
    let sums = Span {
        lo: sum_start(f, x.lo, y.lo),
        hi: sum_end(f, x.hi, y.hi),
    };
    word_of(f, sums)
}

// The difference is the sum with the negated range.
pub fn subtract_word(f: Format, x: Span, b: u64) -> u64
    requires { (Cells f.n x) × (Real f.n b) }
    ensures { result ≡ word_at f.n (sum_cells f.n f.es x (mirrored f.n (cells_of f.n b))) }
{
    add_cells(f, x, cells_of(f, turned(f, b)))
}

pub fn add_ranges(f: Format, a: u64, b: u64) -> u64
    requires { (Real f.n a) × (Real f.n b) }
    ensures { result ≡ answer_of f.n f.es 0 a b }
{
    add_cells(f, cells_of(f, a), cells_of(f, b))
}

pub fn subtract_ranges(f: Format, a: u64, b: u64) -> u64
    requires { (Real f.n a) × (Real f.n b) }
    ensures { result ≡ answer_of f.n f.es 1 a b }
{
    subtract_word(f, cells_of(f, a), b)
}
