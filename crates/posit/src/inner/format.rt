// A format: the width n of its posits and their exponent size es, within the limits.
ghost use Rattle.std.specs.Prelude.{◌≤◌};

use call::reason::Reason;

pub const LEAST_WIDTH: u32 = 3;

pub const GREATEST_WIDTH: u32 = 16;

pub const GREATEST_EXPONENT_SIZE: u32 = 2;

#[derive(Clone, Copy, Debug, PartialEq, Eq)]
pub struct Format {
    pub n: u32,
    pub es: u32,
    pub ghost wide_enough: { 3 ≤ n },
    pub ghost not_too_wide: { n ≤ 16 },
    pub ghost exponent_fits: { es ≤ 2 },
}

impl Format {
    ghost use Rattle.posit.specs.Formats.{IsFormatOf};

    // The format of n and es, or its refusal.
    pub fn new(n: u32, es: u32) -> Result<Format, Reason>
        ensures { IsFormatOf n es result }
    {
        let in_limits = LEAST_WIDTH <= n && n <= GREATEST_WIDTH && es <= GREATEST_EXPONENT_SIZE;
        if in_limits {
            Ok(Format { n, es })
        } else {
            Err(Reason::OutsideLimits)
        }
    }
}
