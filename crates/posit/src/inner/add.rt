// The sum and the difference of two posits, by cases on the decoded operands.
ghost use Rattle.std.specs.Prelude.{◌^◌, ◌<◌};
ghost use Rattle.call.specs.Operation.{plus, minus};
ghost use Rattle.posit.specs.Operation.{Operates};
ghost use Rattle.posit.specs.Magnitudes.{AddsFinite};

use super::super::decoded::Decoded;
use super::finite::Finite;
use super::format::Format;
use super::power::{negated, power32};
use super::round::round_magnitude;
use super::sum::exact_sum;
use super::unpack::unpack;

// The rounded sum of two numbers.
fn add_finite(f: Format, x: Finite, y: Finite) -> u32
    ensures { AddsFinite f.n f.es x y result }
{
    match exact_sum(x, y) {
        None => 0,
        Some(sum) => round_magnitude(f, sum.negative, sum.size),
    }
}

pub fn add_posits(f: Format, p: u32, q: u32) -> u32
    requires { (p < 2 ^ f.n) × (q < 2 ^ f.n) }
    ensures { Operates f.n f.es plus p q result }
{
    match unpack(f, p) {
        Decoded::Nar => power32(f.n - 1),
        Decoded::Zero => q,
        Decoded::Finite {
            negative,
            scale,
            fraction,
        } => {
            let x = Finite {
                negative,
                scale,
                fraction,
            };
            match unpack(f, q) {
                Decoded::Nar => power32(f.n - 1),
                Decoded::Zero => p,
                Decoded::Finite {
                    negative,
                    scale,
                    fraction,
                } => {
                    let y = Finite {
                        negative,
                        scale,
                        fraction,
                    };
                    add_finite(f, x, y)
                }
            }
        }
    }
}

// The difference is the sum with the negated posit.
pub fn subtract_posits(f: Format, p: u32, q: u32) -> u32
    requires { (p < 2 ^ f.n) × (q < 2 ^ f.n) }
    ensures { Operates f.n f.es minus p q result }
{
    add_posits(f, p, negated(f.n, q))
}
