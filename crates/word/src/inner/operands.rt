// Both operands of a call on two ranges: judged in their order, and taken apart into their cells.
ghost use Rattle.word.specs.Taking.{TakesBoth};

use super::span::Span;
use super::word::take_word;
use call::place::RIGHT;
use call::refusal::Refusal;
use posit::inner::format::Format;

// By `match`, as in `judge_word`.
pub fn take_words(f: Format, a: u64, b: u64) -> Result<(Span, Span), Refusal>
    ensures { TakesBoth f.n a b result }
{
    let left = take_word(f.n, a)?;
    match take_word(f.n, b) {
        Ok(right) => Ok((left, right)),
        Err(reason) => Err(reason.at(RIGHT)),
    }
}
