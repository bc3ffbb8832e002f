// A sheet of ranges worked into a lent column.
ghost use Rattle.std.specs.Prelude.{length};
ghost use Rattle.sheet.specs.Sheet.{verdict_of_sheet, rows_of, steps_of};
ghost use Rattle.call.specs.Written.{Writes};

use super::inner::limits::judge_sheet;
use super::inner::steps::{Rows, judge_inputs, work_steps};
use call::refusal::Refusal;

// The inputs and then the steps, three bytes each: operation, left row, right row. The rows are written once all are worked.
pub fn work(n: u32, es: u32, inputs: &[u64], steps: &[u8], lent: &mut [u64]) -> Result<u32, Refusal>
    ensures { Writes (verdict_of_sheet n es inputs.now steps.now (length lent.old)) 0 (rows_of n es inputs.now (steps_of steps.now)) lent.old lent.new result }
{
    let f = judge_sheet(n, es, inputs.len(), steps.len(), lent.len())?;
    judge_inputs(f.n, inputs)?;
    let mut rows = Rows::new();
    rows.try_extend_from_slice(inputs).unwrap();
    work_steps(f, steps, &mut rows)?;
    let count = rows.len();
    lent[..count].copy_from_slice(&rows);
    Ok(count as u32)
}
