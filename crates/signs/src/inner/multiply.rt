// The product of two real ranges.
ghost use Rattle.std.specs.Prelude.{◌≡◌, ◌≤◌};
ghost use Rattle.word.specs.Member.{Real};
ghost use Rattle.word.specs.Spans.{RealCells, word_at};
ghost use Rattle.signs.specs.Signs.{product_cells};
ghost use Rattle.word.specs.Computed.{answer_of};

use super::mixed::{is_mixed_by, mixed_results};
use super::one_sign::{have_one_sign, one_sign_results};
use super::scaling::Product;
use super::signs::{has_other, has_zero, hull, signed_results, zero_if};
use posit::inner::format::Format;
use word::inner::span::{Span, joined, word_of};
use word::inner::word::cells_of;

// The cells of all products, whatever the signs.
fn products(f: Format, x: Span, y: Span) -> Span
    requires { (RealCells f.n x) × (RealCells f.n y) }
    ensures { result ≡ product_cells f.n f.es x y }
{
    let signed = signed_results::<Product>(f, x, y);
    let left = zero_if(f.n, has_zero(f, x), has_other(f.n, y));
    let right = zero_if(f.n, x.lo <= x.hi, has_zero(f, y));
    hull(hull(signed, left), right)
}

// The cells of all products of two ranges that have members: a short way for the usual signs.
fn some_products(f: Format, x: Span, y: Span) -> Span
    requires { (RealCells f.n x) × (RealCells f.n y) × (x.lo ≤ x.hi) × (y.lo ≤ y.hi) }
    ensures { result ≡ product_cells f.n f.es x y }
{
    if have_one_sign(f.n, x, y) {
        return one_sign_results::<Product>(f, x, y);
    }
    if is_mixed_by(f.n, x, y) {
        return mixed_results::<Product>(f, x, y);
    }
    if is_mixed_by(f.n, y, x) {
        return mixed_results::<Product>(f, y, x);
    }
    products(f, x, y)
}

// The product of two ranges that are given by their cells.
pub fn multiply_cells(f: Format, x: Span, y: Span) -> u64
    requires { (RealCells f.n x) × (RealCells f.n y) }
    ensures { result ≡ word_at f.n (product_cells f.n f.es x y) }
{
    if x.hi < x.lo {
        return joined(f, 1, 1);
    }
    if y.hi < y.lo {
        return joined(f, 1, 1);
    }
    word_of(f, some_products(f, x, y))
}

pub fn multiply_ranges(f: Format, a: u64, b: u64) -> u64
    requires { (Real f.n a) × (Real f.n b) }
    ensures { result ≡ answer_of f.n f.es 2 a b }
{
    multiply_cells(f, cells_of(f, a), cells_of(f, b))
}
