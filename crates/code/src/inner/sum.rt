// The exact sum of two magnitudes by their codes. One so small beside the other that a double may not hold their sum is raised first, which changes no digit that
// decides a posit.
ghost use Rattle.std.specs.Prelude.{true, false, ◌≢◌, nat_lt};
ghost use Rattle.exact.specs.Fraction.{◌+ᶠ◌};
ghost use Rattle.posit.specs.Magnitudes.{with_signᶠ};
ghost use Rattle.code.specs.Code.{IsCode, code_value};
ghost use Rattle.code.specs.Coded.{Codes, IsSignedSum};

use super::form::SIGN;
use super::raised::raised;
use posit::inner::format::Format;
use posit::inner::signed::Signed;

// Both magnitudes above 0.
pub fn total(f: Format, x: u64, y: u64) -> u64
    requires { (IsCode f.es x) × (IsCode f.es y) }
    ensures { Codes f.es (code_value 52 x +ᶠ code_value 52 y) result }
{
    (f64::from_bits(raised(x, y)) + f64::from_bits(raised(y, x))).to_bits()
}

// The sum of two codes with their signs.
pub fn signed_sum(f: Format, x: Signed<u64>, y: Signed<u64>) -> Option<Signed<u64>>
    requires { (IsCode f.es x.size) × (IsCode f.es y.size) }
    ensures { IsSignedSum f.es (with_signᶠ x.negative (code_value 52 x.size) +ᶠ with_signᶠ y.negative (code_value 52 y.size)) result }
{
    let left = f64::from_bits(x.negative as u64 * SIGN + raised(x.size, y.size));
    let right = f64::from_bits(y.negative as u64 * SIGN + raised(y.size, x.size));
    let bits = (left + right).to_bits();
    let size = bits % SIGN;
    if size == 0 {
        return None;
    }
    Some(Signed {
        negative: SIGN <= bits,
        size,
    })
}

// The size of x less y, which is below 0 where x is less.
pub fn difference(f: Format, x: u64, y: u64) -> u64
    requires { (IsCode f.es x) × (IsCode f.es y) × (x ≢ y) }
    ensures { IsSignedSum f.es (with_signᶠ false (code_value 52 x) +ᶠ with_signᶠ true (code_value 52 y)) (Some (record { negative = nat_lt x y; size = result })) }
{
    (f64::from_bits(raised(x, y)) - f64::from_bits(raised(y, x))).to_bits() % SIGN
}
