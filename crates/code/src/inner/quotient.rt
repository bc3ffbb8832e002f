// The quotient of two magnitudes by their codes: a double has its first 53 digits, the last of them rounded, and forty of them tell where it lies.
ghost use Rattle.exact.specs.Fraction.{◌/ᶠ◌};
ghost use Rattle.code.specs.Code.{IsCode, code_value};
ghost use Rattle.code.specs.Coded.{Codes};

use posit::inner::format::Format;

// Twelve of the 52 digits behind the first are cut off.
const CUT: u64 = 0x1000;

pub fn quotient(f: Format, x: u64, y: u64) -> u64
    requires { (IsCode f.es x) × (IsCode f.es y) }
    ensures { Codes f.es (code_value 52 x /ᶠ code_value 52 y) result }
{
    (f64::from_bits(x) / f64::from_bits(y)).to_bits() / CUT * CUT
}
