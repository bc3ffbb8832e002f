// The one rounding: from the place among the longer patterns to the posit.
ghost use Rattle.std.specs.Prelude.{◌≡◌, ◌+◌, ◌^◌, ◌<◌, ◌≤◌};
ghost use Rattle.posit.specs.Format as Spec;
ghost use Rattle.posit.specs.Parts.{rounded_of, with_sign};
ghost use Rattle.posit.specs.Magnitudes.{RoundsEach};

use super::format::Format;
use super::locate::locate;
use super::magnitude::Magnitude;
use super::power::{negated, power32};

// The posit that a magnitude above 0 is rounded to, from its floor among the patterns one bit longer and whether that is exact: from an odd
// floor up, unless the magnitude is on it and the lower posit is even. No jump depends on which it is. The mark is no part of
// the floor, since what is lost below a magnitude changes it.
pub fn rounded(n: u32, floor: u32, exact: bool) -> u32
    requires { (3 ≤ n) × (n ≤ 16) × (floor < 2 ^ n) }
    ensures { result ≡ rounded_of n floor exact }
{
    let half = floor / 2;
    if half == 0 {
        return 1;
    }
    if half == power32(n - 1) - 1 {
        return half;
    }
    let stays = exact as u32 * (1 - half % 2);
    half + floor % 2 * (1 - stays)
}

// The posit p, or its negative.
pub fn with_sign(n: u32, negative: bool, p: u32) -> u32
    requires { (n < 32) × (p < 2 ^ n) }
    ensures { result ≡ with_sign n negative p }
{
    if negative { negated(n, p) } else { p }
}

// The posit that a magnitude with a sign is rounded to; the two come apart, as products, quotients and floats have them.
pub fn round_magnitude(f: Format, negative: bool, x: Magnitude) -> u32
    ensures { RoundsEach f.n f.es negative x result }
{
    let at = locate(f, x);
    with_sign(f.n, negative, rounded(f.n, at.pattern, at.exact & !x.lost))
}
