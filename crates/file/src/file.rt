// A sheet file worked into a lent column.
ghost use Rattle.std.specs.Prelude.{length};
ghost use Rattle.file.specs.File.{verdict_of_file, rows_of_file};
ghost use Rattle.call.specs.Written.{Writes};

use super::inner::layout::{
    ES_AT, HEAD_BYTES, INPUTS_AT, N_AT, WORD_BYTES, judge_file, read_words,
};
use call::refusal::Refusal;
use sheet::sheets::work;

// The file's own tests, and then its sheet: the steps are all that stands behind the inputs.
pub fn work_file(file: &[u8], lent: &mut [u64]) -> Result<u32, Refusal>
    ensures { Writes (verdict_of_file file.now (length lent.old)) 0 (rows_of_file file.now) lent.old lent.new result }
{
    judge_file(file)?;
    let n = u32::from(file[N_AT]);
    let es = u32::from(file[ES_AT]);
    let count = usize::from(file[INPUTS_AT]);
    let (inputs, steps) = file[HEAD_BYTES..].split_at(WORD_BYTES * count);
    let words = read_words(count, inputs);
    work(n, es, &words[..count], steps, lent)
}
