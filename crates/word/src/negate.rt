// The negation of a range.
ghost use Rattle.word.specs.Calls.{NegationOf};

use super::inner::judge::judge_word;
use super::inner::turn::turned;
use call::place::LEFT;
use call::refusal::Refusal;
use posit::inner::format::Format;

pub fn negate(n: u32, es: u32, a: u64) -> Result<u64, Refusal>
    ensures { NegationOf n es a result }
{
    let f = Format::new(n, es)?;
    judge_word(f, LEFT, a)?;
    Ok(turned(f, a))
}
