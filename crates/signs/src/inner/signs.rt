// Products and quotients of ranges by the signs of their members.
ghost use Rattle.std.specs.Prelude.{◌≡◌, ◌^◌, ◌<◌, ◌≤◌};
ghost use Rattle.word.specs.Spans.{top_cell, Cells};
ghost use Rattle.signs.specs.Signs.{part_above, PartAbove, hull_of, turned_cells, either_sign, signed_results, has_zero, has_other, zero_if};

use super::parts::positive_results;
use super::scaling::Scaling;
use posit::inner::format::Format;
use posit::inner::power::power32;
use word::inner::span::{Span, mirror, no_cells, top_cell};

// The cells above that of 0.
fn part_above(f: Format, s: Span) -> Span
    ensures { result ≡ part_above f.n s }
{
    let first = power32(f.n);
    let hi = s.hi;
    if hi < first {
        return no_cells(f.n);
    }
    Span {
        lo: s.lo.max(first),
        hi,
    }
}

// The least and the greatest cell of two intervals.
pub fn hull(a: Span, b: Span) -> Span
    ensures { result ≡ hull_of a b }
{
    Span {
        lo: a.lo.min(b.lo),
        hi: a.hi.max(b.hi),
    }
}

// The cells of the negatives.
pub fn turned_cells(n: u32, s: Span) -> Span
    requires { (n ≤ 16) × (Cells n s) }
    ensures { result ≡ turned_cells n s }
{
    let top = top_cell(n);
    let lo = s.lo;
    let hi = s.hi;
    if top < lo {
        return no_cells(n);
    }
    Span {
        lo: top - hi,
        hi: top - lo,
    }
}

// The results of a part above 0 and an operand that is split into its part above 0 and the negatives of its part below.
fn either_sign<S: Scaling>(f: Format, p: Span, above: Span, below: Span) -> Span
    requires { (PartAbove f.n p) × (PartAbove f.n above) × (PartAbove f.n below) }
    ensures { result ≡ either_sign f.n f.es S.divides p above below }
{
    let direct = positive_results::<S>(f, p, above);
    let across = positive_results::<S>(f, p, below);
    hull(direct, turned_cells(f.n, across))
}

// The results of the members other than 0.
pub fn signed_results<S: Scaling>(f: Format, a: Span, b: Span) -> Span
    requires { (Cells f.n a) × (Cells f.n b) × (a.lo ≤ top_cell f.n → a.lo ≤ a.hi) × (b.lo ≤ top_cell f.n → b.lo ≤ b.hi) }
    ensures { result ≡ signed_results f.n f.es S.divides a b }
{
    let above = part_above(f, b);
    let below = part_above(f, mirror(f.n, b));
    let direct = either_sign::<S>(f, part_above(f, a), above, below);
    let across = either_sign::<S>(f, part_above(f, mirror(f.n, a)), above, below);
    hull(direct, turned_cells(f.n, across))
}

// Whether 0 is a member.
pub fn has_zero(f: Format, s: Span) -> bool
    ensures { result ≡ has_zero f.n s }
{
    let zero = power32(f.n) - 1;
    s.lo <= zero && zero <= s.hi
}

// Whether a number other than 0 is.
pub fn has_other(n: u32, s: Span) -> bool
    requires { n ≤ 16 }
    ensures { result ≡ has_other n s }
{
    let first = power32(n);
    first <= s.hi || s.lo < first - 1
}

// The cell of 0, if there is a member for each operand.
pub fn zero_if(n: u32, left: bool, right: bool) -> Span
    requires { n ≤ 16 }
    ensures { result ≡ zero_if n left right }
{
    if left {
        if right {
            let zero = power32(n) - 1;
            return Span { lo: zero, hi: zero };
        }
        return no_cells(n);
    }
    no_cells(n)
}
