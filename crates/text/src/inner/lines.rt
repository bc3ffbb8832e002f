// The lines of the text: one for each row, or the one of a refusal.
ghost use Rattle.std.specs.Prelude.{◌≡◌, ◌+◌, ◌*◌, ◌≤◌, ◌<◌, ◌++◌, length};
ghost use Rattle.text.specs.Text.{row_line, row_lines, refusal_line};

use super::fields::{push_ends, push_number};
use super::page::Page;

// The line of one row.
pub fn push_row(n: u32, row: u32, word: u64, page: &mut Page)
    requires { (n ≤ 16) × (row < 100) × (length page.old.bytes + 21 ≤ 2048) }
    ensures { page.new.bytes ≡ page.old.bytes ++ row_line n row word }
{
    page.push_str("ROW");
    push_number(row, page);
    push_ends(n, word, page);
    page.push('\n');
}

// The lines of all rows.
pub fn push_rows(n: u32, rows: &[u64], page: &mut Page)
    requires { (n ≤ 16) × (length rows.now ≤ 96) × (length page.old.bytes + 21 * length rows.now ≤ 2048) }
    ensures { page.new.bytes ≡ page.old.bytes ++ row_lines n 0 rows.now }
{
    for (row, word) in rows.iter().enumerate() {
        push_row(n, row as u32, *word, page);
    }
}

// The line of a refusal.
pub fn push_refusal(number: u32, place: u32, page: &mut Page)
    requires { length page.old.bytes + 25 ≤ 2048 }
    ensures { page.new.bytes ≡ page.old.bytes ++ refusal_line number place }
{
    page.push_str("NO");
    push_number(number, page);
    push_number(place, page);
    page.push('\n');
}
