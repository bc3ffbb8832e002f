// A pattern taken apart: its scale above minPos's and its significand, and from these the decoded posit.
ghost use Rattle.std.specs.Prelude.{◌≡◌, ◌+◌, ◌-◌, ◌^◌, ◌<◌, ◌≤◌, ◌≢◌};
ghost use Rattle.posit.specs.Format as Spec;
ghost use Rattle.posit.specs.Parts.{TailParts, PartsOf, Odd};
ghost use Rattle.posit.specs.SmallForm.{Unpacks};

use super::super::decoded::Decoded;
use super::choose::chosen;
use super::format::Format;
use super::power::{highest_bit, negated, power32};

// A magnitude in units of minPos: 2^scale · significand / 2^bits.
#[derive(Clone, Copy, Debug, PartialEq, Eq)]
pub struct Parts {
    pub scale: u32,
    pub bits: u32,
    pub significand: u32,
}

// A tail of w bits behind a regime: padded with es zero bits, its exponent and fraction are quotient and remainder of one number.
fn tail_apart(f: Format, regime: u32, w: u32, tail: u32) -> Parts
    requires { (regime < 2 ^ 6) × (w < 2 ^ 4) × (tail < 2 ^ w) }
    ensures { TailParts f.es regime w tail result }
{
    let padded = tail * power32(f.es);
    let unit = power32(w);
    Parts {
        scale: regime * power32(f.es) + padded / unit,
        bits: w,
        significand: unit + padded % unit,
    }
}

// The parts of a magnitude p, a pattern of one bit less than the width that is not 0, without a jump on its run: of zeros the highest set bit closes it, of ones the highest
// that is missing; where none is, all bits are the run.
pub fn take_apart(f: Format, p: u32) -> Parts
    requires { (0 < p) × (p < 2 ^ (f.n - 1)) }
    ensures { PartsOf (f.n - 1) f.es p result }
{
    let b = f.n - 1;
    let ones = p / power32(b - 1);
    let run = chosen(ones, p, power32(b) - 1 - p);
    if run == 0 {
        return Parts {
            scale: 2 * ((b - 1) * power32(f.es)),
            bits: 0,
            significand: 1,
        };
    }
    let w = highest_bit(run as u64);
    let regime = chosen(ones, w, 2 * b - 3 - w);
    tail_apart(f, regime, w, p % power32(w))
}

// The decoded form of a magnitude p with a sign: an odd fraction and its scale.
fn odd_form(f: Format, negative: bool, p: u32) -> Decoded
    requires { (0 < p) × (p < Spec.nar f.n) }
    ensures { Odd f.n f.es negative p result }
{
    let x = take_apart(f, p);
    let zeros = x.significand.trailing_zeros();
    Decoded::Finite {
        negative,
        scale: (x.scale + zeros) as i32 - (x.bits + (f.n - 2) * power32(f.es)) as i32,
        fraction: x.significand / power32(zeros),
    }
}

// A posit decoded.
pub fn unpack(f: Format, p: u32) -> Decoded
    requires { p < 2 ^ f.n }
    ensures { Unpacks f.n f.es p result }
{
    let nar = power32(f.n - 1);
    if p == 0 {
        return Decoded::Zero;
    }
    if p == nar {
        return Decoded::Nar;
    }
    let size = chosen(p / nar, p, negated(f.n, p));
    odd_form(f, nar < p, size)
}
