// Products and quotients of ranges whose members all have one sign: they have results for one pair of signs only.
ghost use Rattle.std.specs.Prelude.{◌≡◌, ◌&&◌, ◌≤◌};
ghost use Rattle.word.specs.Spans.{Cells};
ghost use Rattle.signs.specs.Signs.{result_cells};
ghost use Rattle.signs.specs.OneSign as Spec;
ghost use Rattle.signs.specs.OneSign.{is_above, has_one_sign, OneSign, with_signs};

use super::parts::results_above;
use super::scaling::Scaling;
use super::signs::turned_cells;
use posit::inner::format::Format;
use posit::inner::power::power32;
use word::inner::span::{Span, mirror};

// Whether all members are above 0.
pub fn is_above(n: u32, s: Span) -> bool
    requires { n ≤ 16 }
    ensures { result ≡ is_above n s }
{
    power32(n) <= s.lo
}

// Whether all members are above 0 or all are below.
pub fn has_one_sign(n: u32, s: Span) -> bool
    requires { n ≤ 16 }
    ensures { result ≡ has_one_sign n s }
{
    let first = power32(n);
    first <= s.lo || s.hi < first - 1
}

// Whether that holds of both operands.
pub fn have_one_sign(n: u32, x: Span, y: Span) -> bool
    requires { n ≤ 16 }
    ensures { result ≡ (has_one_sign n x && has_one_sign n y) }
{
    has_one_sign(n, x) && has_one_sign(n, y)
}

// The cells of the magnitudes.
pub fn magnitudes(n: u32, s: Span) -> Span
    requires { (n ≤ 16) × (OneSign n s) }
    ensures { result ≡ Spec.magnitudes n s }
{
    if is_above(n, s) {
        return s;
    }
    mirror(n, s)
}

// The results of x and y from those of their magnitudes: turned round where one of the two is below 0.
fn with_signs(f: Format, x: Span, y: Span, s: Span) -> Span
    requires { Cells f.n s }
    ensures { result ≡ with_signs f.n x y s }
{
    if is_above(f.n, x) == is_above(f.n, y) {
        return s;
    }
    turned_cells(f.n, s)
}

// The cells of all results.
pub fn one_sign_results<S: Scaling>(f: Format, x: Span, y: Span) -> Span
    requires { (OneSign f.n x) × (OneSign f.n y) }
    ensures { result ≡ result_cells f.n f.es S.divides x y }
{
    with_signs(
        f,
        x,
        y,
        results_above::<S>(f, magnitudes(f.n, x), magnitudes(f.n, y)),
    )
}
