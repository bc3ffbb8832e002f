// Where an exact result lies among the posits.
ghost use Rattle.code.specs.Coded.{Fits};
ghost use Rattle.code.specs.Step.{StepOf};

use super::flip::flipped;
use super::form::{BIAS, UNIT};
use posit::inner::format::Format;
use posit::inner::power::power;

// 2 to the power of the number of a word's first bit.
const FIRST: u64 = 0x8000_0000_0000_0000;

// Seven bits of a word are the regime's, counted from -64, and the 57 below are the tail's.
const REGIMES: u64 = 64;

const REGIME: u64 = 0x0200_0000_0000_0000;

// A word whose first bit closes the run, moved down by so much, has its tail in its place.
const TO_TAIL: u64 = 64;

// Moved up by so many places less the exponent size, a code that is counted from the lowest regime has it in a word's first seven bits.
const TO_REGIME: u32 = 5;

// The bit behind the sign stands first in a word: so many places less the width are below the pattern.
const PLACES: u32 = 65;

const WORD: u32 = 64;

// What a run of ones leaves in the lowest places of a word that is turned over; no digit reaches them.
const LOWEST: u64 = 63;

// The way from a code to its pattern: the first bit closes the run, the tail stands behind it, and both are moved down by the length of the run.
pub fn step_of(f: Format, c: u64) -> u32
    requires { Fits f.es c }
    ensures { StepOf f.n f.es c result }
{
    let lowest = (BIAS - REGIMES * power(f.es)) * UNIT;
    let word = (c - lowest) * power(TO_REGIME - f.es);
    let ones = word / FIRST;
    let z = flipped(ones, word);
    let closed = FIRST + z % REGIME * TO_TAIL;
    let pattern = flipped(ones, closed / power(WORD - (z / REGIME) as u32));
    let unit = power(PLACES - f.n);
    let gap = LOWEST < pattern % unit;
    2 * (pattern / unit) as u32 + gap as u32
}
