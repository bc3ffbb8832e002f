// The three comparisons of ranges.
ghost use Rattle.word.specs.Member.{Inside, Meets, Below};
ghost use Rattle.word.specs.Calls.{ComparisonOf};

use super::inner::cells::{cells_below, cells_inside, cells_meet};
use super::inner::judge::judge_words;
use call::refusal::Refusal;
use posit::inner::format::Format;

// Each member of a is in b.
pub fn inside(n: u32, es: u32, a: u64, b: u64) -> Result<bool, Refusal>
    ensures { ComparisonOf Inside n es a b result }
{
    let f = Format::new(n, es)?;
    judge_words(f, a, b)?;
    Ok(cells_inside(f.n, f.es, a, b))
}

// Some member is in both.
pub fn meets(n: u32, es: u32, a: u64, b: u64) -> Result<bool, Refusal>
    ensures { ComparisonOf Meets n es a b result }
{
    let f = Format::new(n, es)?;
    judge_words(f, a, b)?;
    Ok(cells_meet(f.n, f.es, a, b))
}

// Each member of a is less than each of b.
pub fn below(n: u32, es: u32, a: u64, b: u64) -> Result<bool, Refusal>
    ensures { ComparisonOf Below n es a b result }
{
    let f = Format::new(n, es)?;
    judge_words(f, a, b)?;
    Ok(cells_below(f.n, f.es, a, b))
}
