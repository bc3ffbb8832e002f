// Where an exact magnitude lies among the patterns that are one bit longer than the format's.
ghost use Rattle.std.specs.Prelude.{◌+◌, ◌-◌, ◌*◌, ◌^◌, ◌<◌, ◌≤◌};
ghost use Rattle.posit.specs.Locating.{Locates};
ghost use Rattle.posit.specs.Parts.{Cut, BehindRun};

use super::choose::chosen;
use super::format::Format;
use super::magnitude::Magnitude;
use super::power::{highest_bit, power, power32};

// The largest pattern whose value is at most the magnitude, and whether it is the magnitude: there always is one, so this is no Option.
#[derive(Clone, Copy, Debug, PartialEq, Eq)]
pub struct Located {
    pub pattern: u32,
    pub exact: bool,
}

// The pattern whose tail is x, a number of `width` bits, cut to w bits and put behind a head.
fn cut(head: u32, w: u32, width: u32, x: u64) -> Located
    requires { (head < 2 ^ 17) × (w ≤ width) × (w ≤ 16) × (width < 64) × (x < 2 ^ width) }
    ensures { Cut head w width x result }
{
    let unit = power(width - w);
    Located {
        pattern: head + (x / unit) as u32,
        exact: x % unit == 0,
    }
}

// Regimes are counted from 0, and from the width less 1 on the run is of ones: then 32 is reached here.
const TO_ONES: u32 = 33;

const REACHED: u32 = 32;

// The pattern of a regime with the tail x, without a jump on which run it has.
fn behind_run(f: Format, regime: u32, width: u32, x: u64) -> Located
    requires { (regime < 2 * (f.n - 1)) × (16 ≤ width) × (width < 64) × (x < 2 ^ width) }
    ensures { BehindRun f.n regime width x result }
{
    let ones = (regime + TO_ONES - f.n) / REACHED;
    let w = chosen(ones, regime, 2 * f.n - 3 - regime);
    let unit = power32(w);
    cut(chosen(ones, unit, power32(f.n) - 2 * unit), w, width, x)
}

// Where the lower end of a magnitude lies.
pub fn locate(f: Format, x: Magnitude) -> Located
    ensures { Locates f.n f.es x.g x.s x.a result.pattern result.exact }
{
    let h = highest_bit(x.g);
    let lift = x.s + h as u64 + (f.n as u64 - 1) * power(f.es);
    if lift < x.a {
        return Located {
            pattern: 0,
            exact: false,
        };
    }
    let scale = lift - x.a;
    let regime = scale / power(f.es);
    let tail = scale % power(f.es) * power(h) + (x.g - power(h));
    if regime < 2 * (f.n as u64 - 1) {
        return behind_run(f, regime as u32, h + f.es, tail);
    }
    Located {
        pattern: power32(f.n) - 1,
        exact: scale == 2 * (f.n as u64 - 1) * power(f.es) && x.g == power(h),
    }
}
