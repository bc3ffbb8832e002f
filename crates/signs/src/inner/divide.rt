// The quotient of two real ranges, with the divisor's 0 left out. Not one with the product, which may be turned round and has 0 from either operand.
ghost use Rattle.std.specs.Prelude.{◌≡◌, ◌≤◌};
ghost use Rattle.word.specs.Member.{Real};
ghost use Rattle.word.specs.Spans.{RealCells, word_at};
ghost use Rattle.signs.specs.Signs.{quotient_cells};
ghost use Rattle.word.specs.Computed.{answer_of};

use super::mixed::{is_mixed_by, mixed_results};
use super::one_sign::{have_one_sign, one_sign_results};
use super::scaling::Quotient;
use super::signs::{has_other, has_zero, hull, signed_results, zero_if};
use posit::inner::format::Format;
use word::inner::span::{Span, joined, word_of};
use word::inner::word::cells_of;

// The cells of all quotients, whatever the signs.
fn quotients(f: Format, x: Span, y: Span) -> Span
    requires { (RealCells f.n x) × (RealCells f.n y) }
    ensures { result ≡ quotient_cells f.n f.es x y }
{
    let signed = signed_results::<Quotient>(f, x, y);
    let zero = zero_if(f.n, has_zero(f, x), has_other(f.n, y));
    hull(signed, zero)
}

// The cells of all quotients of two ranges that have members: a short way for the usual signs.
fn some_quotients(f: Format, x: Span, y: Span) -> Span
    requires { (RealCells f.n x) × (RealCells f.n y) × (x.lo ≤ x.hi) × (y.lo ≤ y.hi) }
    ensures { result ≡ quotient_cells f.n f.es x y }
{
    if have_one_sign(f.n, x, y) {
        return one_sign_results::<Quotient>(f, x, y);
    }
    if is_mixed_by(f.n, x, y) {
        return mixed_results::<Quotient>(f, x, y);
    }
    quotients(f, x, y)
}

// The quotient of two ranges that are given by their cells.
pub fn divide_cells(f: Format, x: Span, y: Span) -> u64
    requires { (RealCells f.n x) × (RealCells f.n y) }
    ensures { result ≡ word_at f.n (quotient_cells f.n f.es x y) }
{
    if x.hi < x.lo {
        return joined(f, 1, 1);
    }
    if y.hi < y.lo {
        return joined(f, 1, 1);
    }
    word_of(f, some_quotients(f, x, y))
}

pub fn divide_ranges(f: Format, a: u64, b: u64) -> u64
    requires { (Real f.n a) × (Real f.n b) }
    ensures { result ≡ answer_of f.n f.es 3 a b }
{
    divide_cells(f, cells_of(f, a), cells_of(f, b))
}
