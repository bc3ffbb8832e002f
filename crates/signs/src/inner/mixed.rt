// Products and quotients where one operand has members on both sides of 0 and the other's have one sign: the outermost members decide them.
ghost use Rattle.std.specs.Prelude.{◌≡◌, ◌≤◌};
ghost use Rattle.word.specs.Spans.{top_cell};
ghost use Rattle.signs.specs.Signs.{result_cells};
ghost use Rattle.signs.specs.OneSign.{OneSign};
ghost use Rattle.signs.specs.Mixed as Spec;
ghost use Rattle.signs.specs.Mixed.{is_mixed, is_mixed_by, Mixed};

use super::edge::end_edge;
use super::one_sign::{has_one_sign, is_above, magnitudes};
use super::parts::last_cell;
use super::scaling::Scaling;
use posit::inner::format::Format;
use posit::inner::power::power32;
use word::inner::span::{Span, top_cell};

// Whether there are members above 0 and below it.
pub fn is_mixed(n: u32, s: Span) -> bool
    requires { n ≤ 16 }
    ensures { result ≡ is_mixed n s }
{
    let first = power32(n);
    first <= s.hi && s.lo < first - 1
}

// Whether that holds of x, and y has one sign.
pub fn is_mixed_by(n: u32, x: Span, y: Span) -> bool
    requires { n ≤ 16 }
    ensures { result ≡ is_mixed_by n x y }
{
    is_mixed(n, x) && has_one_sign(n, y)
}

// From the negative of one cell up to the other, turned round where y is below 0.
fn around(f: Format, y: Span, below: u32, above: u32) -> Span
    requires { (below ≤ top_cell f.n) × (above ≤ top_cell f.n) }
    ensures { result ≡ Spec.around f.n y below above }
{
    let top = top_cell(f.n);
    if is_above(f.n, y) {
        return Span {
            lo: top - below,
            hi: above,
        };
    }
    Span {
        lo: top - above,
        hi: below,
    }
}

// The cells of all results.
pub fn mixed_results<S: Scaling>(f: Format, x: Span, y: Span) -> Span
    requires { (Mixed f.n x) × (OneSign f.n y) }
    ensures { result ≡ result_cells f.n f.es S.divides x y }
{
    let last = S::last_edge(f, magnitudes(f.n, y));
    let below = last_cell::<S>(f, end_edge(f, top_cell(f.n) - x.lo), last);
    let above = last_cell::<S>(f, end_edge(f, x.hi), last);
    around(f, y, below, above)
}
