// The exact sum of two numbers, over the aligned operands in units of 2^-56.
ghost use Rattle.std.specs.Prelude.{◌^◌, ◌<◌};
ghost use Rattle.posit.specs.Magnitudes.{SumOf, DifferenceOf};

use super::finite::{Finite, UNIT_BITS};
use super::magnitude::Magnitude;
use super::signed::Signed;
use super::wide::{narrowed, widened};

// The difference of two magnitudes, with the sign of the first where it is the larger and the other sign where it is the smaller; none of two equal ones.
fn difference(negative: bool, x: u128, y: u128) -> Option<Signed<Magnitude>>
    ensures { DifferenceOf negative x y result }
{
    if x == y {
        return None;
    }
    if x < y {
        return Some(Signed {
            negative: !negative,
            size: narrowed(y - x),
        });
    }
    Some(Signed {
        negative,
        size: narrowed(x - y),
    })
}

// The sum; none where it is 0.
pub fn exact_sum(x: Finite, y: Finite) -> Option<Signed<Magnitude>>
    ensures { SumOf x y result }
{
    let left = widened(x.fraction, (x.scale + UNIT_BITS) as u32);
    let right = widened(y.fraction, (y.scale + UNIT_BITS) as u32);
    if x.negative == y.negative {
        return Some(Signed {
            negative: x.negative,
            size: narrowed(left + right),
        });
    }
    difference(x.negative, left, right)
}
