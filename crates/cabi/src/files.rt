// A sheet file, exported: its bytes and the lent column come as a pointer and a length each.
ghost use Rattle.std.specs.Prelude.{length};
ghost use Rattle.file.specs.File.{verdict_of_file, rows_of_file};
ghost use Rattle.cabi.specs.SheetCalls.{WritesAs};

use super::sheet_shape::SheetAnswer;
use file::file::work_file;

#[unsafe(no_mangle)]
pub extern "C" fn jorumrain_file_work(file: &[u8], lent: &mut [u64]) -> SheetAnswer
    ensures { WritesAs (verdict_of_file file.now (length lent.old)) 0 (rows_of_file file.now) lent.old lent.new result }
{
    work_file(file, lent).into()
}
