// Two columns of ranges combined pair by pair into a lent column.
ghost use Rattle.std.specs.Prelude.{length};
ghost use Rattle.column.specs.Column.{verdict_of_columns, answers_of};
ghost use Rattle.call.specs.Written.{Writes};

use super::inner::limits::judge_columns;
use super::inner::pairs::{judge_pairs, write_answers};
use super::inner::plains::{takes_plain_way, write_plain};
use call::refusal::Refusal;

// One operation on two columns; the answers are written into the lent column from a row on, once every pair has been judged, or all words are seen to be plain.
pub fn combine(
    n: u32,
    es: u32,
    op: u8,
    left: &[u64],
    right: &[u64],
    row: usize,
    lent: &mut [u64],
) -> Result<u32, Refusal>
    ensures { Writes (verdict_of_columns n es op left.now right.now row (length lent.old)) row (answers_of n es op left.now right.now) lent.old lent.new result }
{
    let (f, operation) = judge_columns(n, es, op, left.len(), right.len(), row, lent.len())?;
    if takes_plain_way(f.n, op, left, right) {
        write_plain(f, operation, left, right, &mut lent[row..]);
        return Ok(left.len() as u32);
    }
    judge_pairs(f, op, left, right)?;
    write_answers(f, operation, left, right, &mut lent[row..]);
    Ok(left.len() as u32)
}
