// The quotient of the sizes of two numbers, with a mark for its remainder.
ghost use Rattle.posit.specs.Magnitudes.{QuotientOf};

use super::finite::{Finite, UNIT_BITS};
use super::magnitude::Magnitude;

// Zero bits put below the dividend, so that the quotient has as many as a `Magnitude` has, and 2 to that power.
const SPARE_BITS: u64 = 47;

const SPARE: u64 = 0x8000_0000_0000;

// The size of x over that of y.
pub fn quotient(x: Finite, y: Finite) -> Magnitude
    ensures { QuotientOf x y result }
{
    let dividend = x.fraction as u64 * SPARE;
    let divisor = y.fraction as u64;
    Magnitude {
        g: dividend / divisor,
        s: (x.scale + UNIT_BITS) as u64,
        a: (y.scale + UNIT_BITS) as u64 + SPARE_BITS,
        lost: dividend % divisor != 0,
    }
}
