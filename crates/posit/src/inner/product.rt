// The exact product of the sizes of two numbers, in one word.
ghost use Rattle.posit.specs.Magnitudes.{ProductOf};

use super::finite::{Finite, UNIT_BITS};
use super::magnitude::Magnitude;

// Zero bits put below a product, so that it has as many as a `Magnitude` has, and 2 to that power.
const SPARE_BITS: u64 = 32;

const SPARE: u64 = 0x1_0000_0000;

// The size of x times that of y.
pub fn product(x: Finite, y: Finite) -> Magnitude
    ensures { ProductOf x y result }
{
    Magnitude {
        g: x.fraction as u64 * y.fraction as u64 * SPARE,
        s: (x.scale + UNIT_BITS) as u64 + (y.scale + UNIT_BITS) as u64,
        a: 2 * UNIT_BITS as u64 + SPARE_BITS,
        lost: false,
    }
}
