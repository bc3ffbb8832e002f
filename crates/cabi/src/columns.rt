// One operation on two columns, exported: each slice comes as a pointer and a length.
ghost use Rattle.std.specs.Prelude.{length};
ghost use Rattle.column.specs.Column.{verdict_of_columns, answers_of};
ghost use Rattle.cabi.specs.SheetCalls.{WritesAs};

use super::sheet_shape::SheetAnswer;
use column::columns::combine;

#[unsafe(no_mangle)]
pub extern "C" fn jorumrain_columns_combine(
    n: u32,
    es: u32,
    op: u8,
    left: &[u64],
    right: &[u64],
    row: usize,
    lent: &mut [u64],
) -> SheetAnswer
    ensures { WritesAs (verdict_of_columns n es op left.now right.now row (length lent.old)) row (answers_of n es op left.now right.now) lent.old lent.new result }
{
    combine(n, es, op, left, right, row, lent).into()
}
