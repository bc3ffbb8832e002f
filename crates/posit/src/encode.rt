// Encoding: zero, NaR, or any sign, scale and fraction, rounded to a posit.
ghost use Rattle.std.specs.Prelude.{◌<◌};
ghost use Rattle.posit.specs.Decoding.{Encodes, EncodingOf};
ghost use Rattle.posit.specs.Parts.{LocatesScaled};

use super::decoded::Decoded;
use super::inner::format::Format;
use super::inner::locate::{Located, locate};
use super::inner::magnitude::Magnitude;
use super::inner::power::power32;
use super::inner::round::{rounded, with_sign};
use call::refusal::Refusal;

// Zero bits put below a fraction, so that it has as many as a `Magnitude` has, and 2 to that power.
const SPARE_BITS: u64 = 29;

const SPARE: u64 = 0x2000_0000;

// Where fraction · 2^scale lies.
fn locate_scaled(f: Format, scale: i32, fraction: u32) -> Located
    requires { 0 < fraction }
    ensures { LocatesScaled f.n f.es scale fraction result }
{
    let g = fraction as u64 * SPARE;
    if scale < 0 {
        let a = (0 - scale as i64) as u64 + SPARE_BITS;
        locate(
            f,
            Magnitude {
                g,
                s: 0,
                a,
                lost: false,
            },
        )
    } else {
        locate(
            f,
            Magnitude {
                g,
                s: scale as u64,
                a: SPARE_BITS,
                lost: false,
            },
        )
    }
}

// A decoded posit in any of its forms, as a pattern.
fn pack(f: Format, decoded: Decoded) -> u32
    ensures { Encodes f.n f.es decoded result }
{
    match decoded {
        Decoded::Zero => 0,
        Decoded::Nar => power32(f.n - 1),
        Decoded::Finite {
            negative,
            scale,
            fraction,
        } => {
            if fraction == 0 {
                return 0;
            }
            let x = locate_scaled(f, scale, fraction);
            with_sign(f.n, negative, rounded(f.n, x.pattern, x.exact))
        }
    }
}

pub fn encode(n: u32, es: u32, decoded: Decoded) -> Result<u32, Refusal>
    ensures { EncodingOf n es decoded result }
{
    let f = Format::new(n, es)?;
    Ok(pack(f, decoded))
}
