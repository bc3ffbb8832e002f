// Pairs of words from two columns: judged, and answered.
ghost use Rattle.std.specs.Prelude.{◌≡◌, ◌++◌, ◌≤◌, length, drop};
ghost use Rattle.call.specs.Operation.{number_of};
ghost use Rattle.call.specs.Verdict.{first_hit, done, Says};
ghost use Rattle.column.specs.Column.{pair_tests, pairs_tests, answers_of};

use super::divisor::judge_divisor;
use call::operation::Operation;
use call::refusal::Refusal;
use posit::inner::format::Format;
use range::inner::operate::operate_words;
use word::inner::judge::judge_word;

// One pair, at a place; a number that names no operation has no divisor to judge.
pub fn judge_pair(f: Format, op: u8, place: u32, a: u64, b: u64) -> Result<(), Refusal>
    ensures { Says (first_hit (pair_tests f.n f.es op place a b)) result }
{
    judge_word(f, place, a)?;
    judge_word(f, place, b)?;
    match Operation::try_from(op) {
        Ok(op) => judge_divisor(f, op, place, b),
        Err(_) => Ok(()),
    }
}

// Every pair, in order; the place is the pair.
pub fn judge_pairs(f: Format, op: u8, left: &[u64], right: &[u64]) -> Result<(), Refusal>
    requires { (length left.now ≡ length right.now) × (length left.now ≤ 4096) }
    ensures { Says (first_hit (pairs_tests f.n f.es op 0 left.now right.now)) result }
{
    for (i, (a, b)) in left.iter().zip(right).enumerate() {
        judge_pair(f, op, i as u32, *a, *b)?;
    }
    Ok(())
}

// The answers of pairs that were judged, written from the front, by number: after a loop over `iter_mut` nothing is known of what was written.
pub fn write_answers(f: Format, op: Operation, left: &[u64], right: &[u64], out: &mut [u64])
    requires fits { (length left.now ≡ length right.now) × (length left.now ≤ length out.old) }
    requires passes { first_hit (pairs_tests f.n f.es (number_of op) 0 left.now right.now) ≡ done }
    ensures { out.new ≡ answers_of f.n f.es (number_of op) left.now right.now ++ drop (length left.now) out.old }
{
    for (i, (a, b)) in left.iter().zip(right).enumerate() {
        out[i] = operate_words(f, op, *a, *b);
    }
}
