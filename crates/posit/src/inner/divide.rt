// The quotient of two posits, by cases on the decoded operands; apart from the product, since a zero divisor gives NaR and a zero dividend 0.
ghost use Rattle.std.specs.Prelude.{◌^◌, ◌<◌};
ghost use Rattle.call.specs.Operation.{over};
ghost use Rattle.posit.specs.Operation.{Operates};

use super::super::decoded::Decoded;
use super::finite::Finite;
use super::format::Format;
use super::power::power32;
use super::quotient::quotient;
use super::round::round_magnitude;
use super::unpack::unpack;

pub fn divide_posits(f: Format, p: u32, q: u32) -> u32
    requires { (p < 2 ^ f.n) × (q < 2 ^ f.n) }
    ensures { Operates f.n f.es over p q result }
{
    let nar = power32(f.n - 1);
    match unpack(f, q) {
        Decoded::Nar => nar,
        Decoded::Zero => nar,
        Decoded::Finite {
            negative,
            scale,
            fraction,
        } => {
            let y = Finite {
                negative,
                scale,
                fraction,
            };
            match unpack(f, p) {
                Decoded::Nar => nar,
                Decoded::Zero => 0,
                Decoded::Finite {
                    negative,
                    scale,
                    fraction,
                } => {
                    let x = Finite {
                        negative,
                        scale,
                        fraction,
                    };
                    round_magnitude(f, x.negative != y.negative, quotient(x, y))
                }
            }
        }
    }
}
