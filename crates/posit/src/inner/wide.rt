// Whole numbers of up to 120 bits; in units of 2^-56 every posit of every format is one.
ghost use Rattle.std.specs.Prelude.{◌≡◌, ◌*◌, ◌^◌, ◌<◌, ◌≤◌};
ghost use Rattle.posit.specs.Magnitudes.{Narrows};

use super::finite::UNIT_BITS;
use super::magnitude::Magnitude;

// A magnitude takes the first 62 of 128 bits, and CUT_BITS lie below them.
const CUT_BITS: u64 = 66;

const CUT: u128 = 0x4_0000_0000_0000_0000;

// g · 2^e.
pub fn widened(g: u32, e: u32) -> u128
    requires { (g < 2 ^ 14) × (e ≤ 112) }
    ensures { result ≡ g * 2 ^ e }
{
    u128::from(g) << e
}

// x / 2^56 as a magnitude: its first 62 bits, and whether something was lost below.
pub fn narrowed(x: u128) -> Magnitude
    requires { 0 < x }
    ensures { Narrows x result }
{
    let zeros = x.leading_zeros();
    let first = x << zeros;
    Magnitude {
        g: (first / CUT) as u64,
        s: CUT_BITS,
        a: UNIT_BITS as u64 + u64::from(zeros),
        lost: first % CUT != 0,
    }
}
