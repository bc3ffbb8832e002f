// The exact product of two magnitudes by their codes: a double holds it.
ghost use Rattle.exact.specs.Fraction.{◌*ᶠ◌};
ghost use Rattle.code.specs.Code.{IsCode, code_value};
ghost use Rattle.code.specs.Coded.{Codes};

use posit::inner::format::Format;

pub fn product(f: Format, x: u64, y: u64) -> u64
    requires { (IsCode f.es x) × (IsCode f.es y) }
    ensures { Codes f.es (code_value 52 x *ᶠ code_value 52 y) result }
{
    (f64::from_bits(x) * f64::from_bits(y)).to_bits()
}
