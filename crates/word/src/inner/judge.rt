// The tests of range words: too large, and holding infinity.
ghost use Rattle.call.specs.Verdict.{Says};
ghost use Rattle.word.specs.Calls.{verdict_of_word};
ghost use Rattle.word.specs.Refusal.{verdict_of_words};

use super::word::take_word;
use call::place::{LEFT, RIGHT};
use call::refusal::Refusal;
use posit::inner::format::Format;

// One word, at a place; `map_err` takes a closure, whose answer the proof would have to find again.
pub fn judge_word(f: Format, place: u32, a: u64) -> Result<(), Refusal>
    ensures { Says (verdict_of_word f.n place a) result }
{
    match take_word(f.n, a) {
        Ok(_) => Ok(()),
        Err(reason) => Err(reason.at(place)),
    }
}

// Two words, the left one first.
pub fn judge_words(f: Format, a: u64, b: u64) -> Result<(), Refusal>
    ensures { Says (verdict_of_words f.n a b) result }
{
    judge_word(f, LEFT, a)?;
    judge_word(f, RIGHT, b)
}
