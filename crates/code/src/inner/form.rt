// The code of a posit above 0: the bits of the double that it is.
ghost use Rattle.std.specs.Prelude.{◌≡◌, ◌+◌, ◌-◌, ◌*◌, ◌%◌, ◌^◌, ◌<◌};
ghost use Rattle.posit.specs.Format as Spec;
ghost use Rattle.code.specs.Code.{CodeOf};

use posit::inner::format::Format;
use posit::inner::power::{power, power32};

// A double's digits behind the first, and the first place of its exponent.
const DIGITS: u32 = 52;

pub const UNIT: u64 = 0x10_0000_0000_0000;

// The exponent of 1.
pub const BIAS: u64 = 1023;

// With the width added, the exponent of the whole number that the pattern of 1 is folded to.
const ONE: u64 = 1022;

// A double's sign.
pub const SIGN: u64 = 0x8000_0000_0000_0000;

// Behind a run of zeros a code lies as far below that of 1 as the bits lie below those of 1's whole number, stretched by the exponent size: so much is taken
// from the stretched bits.
fn zeros_from(f: Format) -> u64
    ensures { result ≡ ((1022 + f.n) * 2 ^ f.es - 1023) * 2 ^ 52 }
{
    ((ONE + f.n as u64) * power(f.es) - BIAS) * UNIT
}

// Behind a run of ones it lies as far above: from so much the stretched bits are taken, with their sign, which was moved up too.
fn ones_from(f: Format) -> u64
    ensures { result ≡ (((1022 + f.n) * 2 ^ f.es + 1023) * 2 ^ 52 + 2 ^ 63 * 2 ^ f.es) % 2 ^ 64 }
{
    (((ONE + f.n as u64) * power(f.es) + BIAS) << DIGITS).wrapping_add(SIGN << f.es)
}

// Twice the pattern, or with a run of ones how far that is below NaR's, as a number below 0: its highest bit tells how long the run is. The double made of it has
// that bit as its exponent and the tail behind it.
pub fn code_of(f: Format, m: u32) -> u64
    requires { (0 < m) × (m < Spec.nar f.n) }
    ensures { CodeOf f.n f.es m result }
{
    let ones = power32(f.n - 1);
    let folded = (2 * m ^ ones) as i32 - ones as i32;
    let bits = (folded as f64).to_bits() << f.es;
    let behind_ones = ones_from(f).wrapping_sub(bits);
    let behind_zeros = bits.wrapping_sub(zeros_from(f));
    if folded < 0 {
        return behind_ones;
    }
    behind_zeros
}
