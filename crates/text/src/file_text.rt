// A sheet file worked, and its text written.
ghost use Rattle.std.specs.Prelude.{◌≡◌, ◌≤◌, ◌++◌, length};
ghost use Rattle.text.specs.FileText.{text_of_file, Leaves};

use super::inner::lines::{push_refusal, push_rows};
use super::inner::page::Page;
use call::refusal::Refusal;
use file::file::work_file;
use file::inner::layout::N_AT;
use sheet::inner::steps::MOST_ROWS;

// Room for the longest text, 96 lines of 21 bytes.
pub const TEXT_BYTES: usize = 2048;

// The lines of the file's rows, or the line of its refusal.
fn push_file(file: &[u8], page: &mut Page)
    requires { length page.old.bytes ≤ 32 }
    ensures { page.new.bytes ≡ page.old.bytes ++ text_of_file file.now }
{
    let mut rows = [0u64; MOST_ROWS];
    match work_file(file, &mut rows) {
        Ok(count) => push_rows(u32::from(file[N_AT]), &rows[..count as usize], page),
        Err(Refusal { reason, place }) => push_refusal(reason.number(), place, page),
    }
}

// The text, at the front of the buffer, and its length.
pub fn sheet_text(file: &[u8], buffer: &mut [u8; TEXT_BYTES]) -> usize
    ensures { Leaves (text_of_file file.now) buffer.old buffer.new result }
{
    let mut page = Page::new();
    push_file(file, &mut page);
    let length = page.len();
    buffer[..length].copy_from_slice(page.as_bytes());
    length
}
