// The ends of ranges as 64-bit floats: coming in, the cell of a float, and going out, the float of a tile.
ghost use Rattle.std.specs.Prelude.{◌≡◌, Bool, false, ◌≢◌, ◌<◌, eqb};
ghost use Rattle.std.specs.Float.Ieee.{is_nan};
ghost use Rattle.std.specs.Float.{inf};
ghost use Rattle.word.specs.Word.{tiles, closed_nar, mark_of, end_of_tile};
ghost use Rattle.reading.specs.Reading.{bad_reading, FloatCell, EndOut};

use cell::inner::cell::cell_of;
use posit::decoded::Decoded;
use posit::inner::finite::Finite;
use posit::inner::float_bits::{FloatParts, digits_magnitude, float_of, float_parts};
use posit::inner::format::Format;
use posit::inner::power::power32;
use posit::inner::unpack::unpack;

const PLUS_INFINITY: u64 = 0x7ff0_0000_0000_0000;

const MINUS_INFINITY: u64 = 0xfff0_0000_0000_0000;

// Whether a reading has a NaN, low +infinity, high -infinity, or low above high.
pub fn bad_reading(low: f64, high: f64) -> bool
    ensures { result ≡ bad_reading low high }
{
    if low.is_nan() || high.is_nan() {
        return true;
    }
    if low.to_bits() == PLUS_INFINITY {
        return true;
    }
    if high.to_bits() == MINUS_INFINITY {
        return true;
    }
    high < low
}

// The cell of a float that is no NaN; of an infinity the given one.
pub fn float_cell(f: Format, x: f64, unbounded: u32) -> u32
    requires { is_nan x ≡ false }
    ensures { FloatCell f.n f.es unbounded x result }
{
    match float_parts(x.to_bits()) {
        FloatParts::Infinite => unbounded,
        FloatParts::Nothing => power32(f.n) - 1,
        FloatParts::Number {
            negative,
            digits,
            shift,
        } => cell_of(f, negative, digits_magnitude(digits, shift)),
    }
}

fn infinity(negative: bool) -> f64
    ensures { result ≡ inf negative }
{
    if negative {
        return f64::from_bits(MINUS_INFINITY);
    }
    f64::from_bits(PLUS_INFINITY)
}

// The float of a tile: its posit's exact value, or the infinity of its side for an open NaR.
pub fn end_float(f: Format, negative: bool, tile: u32) -> f64
    requires { (tile < tiles f.n) × (tile ≢ closed_nar f.n) }
    ensures { EndOut f.n f.es negative (end_of_tile f.n tile) result (eqb (mark_of tile) 1) }
{
    match unpack(f, tile / 2) {
        Decoded::Zero => 0.0,
        Decoded::Nar => infinity(negative),
        Decoded::Finite {
            negative,
            scale,
            fraction,
        } => float_of(Finite {
            negative,
            scale,
            fraction,
        }),
    }
}
