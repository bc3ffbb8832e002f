// A sheet, exported: each slice comes as a pointer and a length.
ghost use Rattle.std.specs.Prelude.{length};
ghost use Rattle.sheet.specs.Sheet.{verdict_of_sheet, rows_of, steps_of};
ghost use Rattle.cabi.specs.SheetCalls.{WritesAs};

use super::sheet_shape::SheetAnswer;
use sheet::sheets::work;

#[unsafe(no_mangle)]
pub extern "C" fn jorumrain_sheet_work(
    n: u32,
    es: u32,
    inputs: &[u64],
    steps: &[u8],
    lent: &mut [u64],
) -> SheetAnswer
    ensures { WritesAs (verdict_of_sheet n es inputs.now steps.now (length lent.old)) 0 (rows_of n es inputs.now (steps_of steps.now)) lent.old lent.new result }
{
    work(n, es, inputs, steps, lent).into()
}
