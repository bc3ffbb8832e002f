// From a 64-bit float, by its exact value; NaN and the infinities give NaR.
ghost use Rattle.posit.specs.Floats.{FromFloat, FromFloatOf};

use super::inner::float_bits::from_pattern;
use super::inner::format::Format;
use super::inner::power::power32;
use call::refusal::Refusal;

fn posit_of(f: Format, x: f64) -> u32
    ensures { FromFloat f.n f.es x result }
{
    if x.is_nan() {
        return power32(f.n - 1);
    }
    from_pattern(f, x.to_bits())
}

pub fn from_float(n: u32, es: u32, x: f64) -> Result<u32, Refusal>
    ensures { FromFloatOf n es x result }
{
    let f = Format::new(n, es)?;
    Ok(posit_of(f, x))
}
