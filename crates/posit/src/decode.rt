// Decoding: a pattern as zero, NaR, or sign, scale and odd fraction.
ghost use Rattle.posit.specs.Decoding.{DecodingOf};

use super::decoded::Decoded;
use super::inner::format::Format;
use super::inner::judge::judge_posit;
use super::inner::unpack::unpack;
use call::place::LEFT;
use call::refusal::Refusal;

pub fn decode(n: u32, es: u32, p: u32) -> Result<Decoded, Refusal>
    ensures { DecodingOf n es p result }
{
    let f = Format::new(n, es)?;
    judge_posit(f, LEFT, p)?;
    Ok(unpack(f, p))
}
