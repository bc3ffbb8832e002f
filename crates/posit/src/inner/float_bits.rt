// The bits of 64-bit floats: a sign, eleven exponent bits and fifty-two fraction bits.
ghost use Rattle.std.specs.Prelude.{◌≡◌, ◌%◌, ◌^◌, ◌<◌, from_bits};
ghost use Rattle.std.specs.Float.{fin, binary64};
ghost use Rattle.posit.specs.Floats.{FromFloat, PartsOfFloat, of_digits};
ghost use Rattle.posit.specs.Magnitudes.{Knows};

use super::finite::Finite;
use super::format::Format;
use super::magnitude::Magnitude;
use super::power::{highest_bit, power, power32};
use super::round::round_magnitude;

const SIGN: u64 = 0x8000_0000_0000_0000;

const HIDDEN: u64 = 0x10_0000_0000_0000;

const INFINITE: u64 = 2047;

const BIAS: i32 = 1023;

// The smallest float above 0 is 2^-LOWEST.
const LOWEST: u64 = 1074;

// Digits below this are moved up by SPARE_BITS, so that they are as many as a `Magnitude` has.
const FEW: u64 = 0x1_0000_0000;

const SPARE_BITS: u64 = 16;

const SPARE: u64 = 0x1_0000;

// What the bits of a float that is no NaN say: an infinity, 0, or digits · 2^shift of the smallest float above 0, with a sign.
#[derive(Clone, Copy, Debug, PartialEq, Eq)]
pub enum FloatParts {
    Infinite,
    Nothing,
    Number {
        negative: bool,
        digits: u64,
        shift: u64,
    },
}

pub fn float_parts(bits: u64) -> FloatParts
    ensures { PartsOfFloat (from_bits binary64 bits) result }
{
    let negative = SIGN <= bits;
    let size = bits % SIGN;
    let exponent = size / HIDDEN;
    if exponent == INFINITE {
        return FloatParts::Infinite;
    }
    if size == 0 {
        return FloatParts::Nothing;
    }
    if exponent == 0 {
        return FloatParts::Number {
            negative,
            digits: size,
            shift: 0,
        };
    }
    FloatParts::Number {
        negative,
        digits: HIDDEN + size % HIDDEN,
        shift: exponent - 1,
    }
}

// digits · 2^shift of the smallest float above 0 as a magnitude.
pub fn digits_magnitude(digits: u64, shift: u64) -> Magnitude
    requires { (0 < digits) × (digits < 2 ^ 53) × (shift < 2 ^ 11) }
    ensures { Knows (of_digits digits shift) result }
{
    if digits < FEW {
        return Magnitude {
            g: digits * SPARE,
            s: shift,
            a: LOWEST + SPARE_BITS,
            lost: false,
        };
    }
    Magnitude {
        g: digits,
        s: shift,
        a: LOWEST,
        lost: false,
    }
}

// The posit that the float with these bits, which is no NaN, is rounded to.
pub fn from_pattern(f: Format, bits: u64) -> u32
    ensures { FromFloat f.n f.es (from_bits binary64 bits) result }
{
    match float_parts(bits) {
        FloatParts::Infinite => power32(f.n - 1),
        FloatParts::Nothing => 0,
        FloatParts::Number {
            negative,
            digits,
            shift,
        } => round_magnitude(f, negative, digits_magnitude(digits, shift)),
    }
}

// The float that is exactly x, whose fraction is odd.
pub fn float_of(x: Finite) -> f64
    requires { x.fraction % 2 ≡ 1 }
    ensures { result ≡ fin x.negative x.fraction x.scale }
{
    let h = highest_bit(x.fraction as u64);
    let exponent = (x.scale + BIAS) as u64 + h as u64;
    let size = exponent * HIDDEN + (x.fraction as u64 * power(52 - h) - HIDDEN);
    if x.negative {
        return f64::from_bits(SIGN + size);
    }
    f64::from_bits(size)
}
