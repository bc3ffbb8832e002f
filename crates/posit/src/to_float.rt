// To a 64-bit float: always exact, zero as +0.0, and NaR as a case of its own.
ghost use Rattle.std.specs.Prelude.{◌^◌, ◌<◌};
ghost use Rattle.posit.specs.Floats.{ToFloat, FloatingOf};

use super::decoded::Decoded;
use super::float::Floated;
use super::inner::finite::Finite;
use super::inner::float_bits::float_of;
use super::inner::format::Format;
use super::inner::judge::judge_posit;
use super::inner::unpack::unpack;
use call::place::LEFT;
use call::refusal::Refusal;

fn floated_of(f: Format, p: u32) -> Floated
    requires { p < 2 ^ f.n }
    ensures { ToFloat f.n f.es p result }
{
    match unpack(f, p) {
        Decoded::Zero => Floated::Value(0.0),
        Decoded::Nar => Floated::Nar,
        Decoded::Finite {
            negative,
            scale,
            fraction,
        } => Floated::Value(float_of(Finite {
            negative,
            scale,
            fraction,
        })),
    }
}

pub fn to_float(n: u32, es: u32, p: u32) -> Result<Floated, Refusal>
    ensures { FloatingOf n es p result }
{
    let f = Format::new(n, es)?;
    judge_posit(f, LEFT, p)?;
    Ok(floated_of(f, p))
}
