// Negating: wrapping subtraction from zero, reduced to n bits; zero and NaR stay.
ghost use Rattle.posit.specs.Negating.{NegationOf};

use super::inner::format::Format;
use super::inner::judge::judge_posit;
use super::inner::power::negated;
use call::place::LEFT;
use call::refusal::Refusal;

pub fn negate(n: u32, es: u32, p: u32) -> Result<u32, Refusal>
    ensures { NegationOf n es p result }
{
    let f = Format::new(n, es)?;
    judge_posit(f, LEFT, p)?;
    Ok(negated(f.n, p))
}
