// The inputs and steps of a sheet: judged, and worked in rows of their own.
ghost use Rattle.std.specs.Prelude.{◌≡◌, ◌/◌, ◌%◌, ◌≤◌, length};
ghost use Rattle.call.specs.Verdict.{first_hit, Says, Answers};
ghost use Rattle.sheet.specs.Sheet.{steps_of, step_tests, steps_tests, inputs_tests};
ghost use Rattle.sheet.specs.Working.{IsOperation, Reals, AreRows};

use super::limits::{MOST_INPUTS, MOST_STEPS, STEP_BYTES};
use arrayvec::ArrayVec;
use call::operation::Operation;
use call::reason::Reason;
use call::refusal::Refusal;
use column::inner::divisor::judge_divisor;
use posit::inner::format::Format;
use range::inner::operate::operate_words;
use word::inner::judge::judge_word;

// Room for the rows of the longest sheet.
pub const MOST_ROWS: usize = MOST_INPUTS + MOST_STEPS;

// The rows of a sheet worked so far.
pub type Rows = ArrayVec<u64, MOST_ROWS>;

// Every input, in order; the place is the row. A word is judged by the width alone, so that any exponent size serves.
pub fn judge_inputs(n: u32, inputs: &[u64]) -> Result<(), Refusal>
    requires { (3 ≤ n) × (n ≤ 16) × (length inputs.now ≤ 32) }
    ensures { Says (first_hit (inputs_tests n 0 inputs.now)) result }
{
    let f = Format { n, es: 0 };
    for (i, word) in inputs.iter().enumerate() {
        judge_word(f, i as u32, *word)?;
    }
    Ok(())
}

// The operation of one step, whose own row is the next after the rows worked so far.
pub fn judge_step(
    f: Format,
    op: u8,
    left: usize,
    right: usize,
    rows: &[u64],
) -> Result<Operation, Refusal>
    requires { (length rows.now ≤ 96) × (Reals f.n rows.now) }
    ensures { Answers (first_hit (step_tests f.n f.es rows.now (record { operation = op; left = left; right = right }))) (IsOperation op) result }
{
    let row = rows.len();
    let place = row as u32;
    // By `match`: `map_err` takes a closure, whose answer the proof would have to find again.
    let op = match Operation::try_from(op) {
        Ok(op) => op,
        Err(reason) => return Err(reason.at(place)),
    };
    if row <= left {
        return Err(Reason::NotEarlier.at(place));
    }
    if row <= right {
        return Err(Reason::NotEarlier.at(place));
    }
    judge_divisor(f, op, place, rows[right])?;
    Ok(op)
}

// Every step, in order, each a row more behind those given, which are the inputs; the place is the step's row.
pub fn work_steps(f: Format, steps: &[u8], rows: &mut Rows) -> Result<(), Refusal>
    requires { (length rows.old.items ≤ 32) × (length steps.now / 3 ≤ 64) × (length steps.now % 3 ≡ 0) × (Reals f.n rows.old.items) }
    ensures { Answers (first_hit (steps_tests f.n f.es rows.old.items (steps_of steps.now))) (AreRows f.n f.es rows.old.items steps.now rows.new.items) result }
{
    let (triples, _) = steps.as_chunks::<STEP_BYTES>();
    for &[op, left, right] in triples {
        let left = usize::from(left);
        let right = usize::from(right);
        let op = judge_step(f, op, left, right, rows)?;
        let word = operate_words(f, op, rows[left], rows[right]);
        rows.push(word);
    }
    Ok(())
}
