// The fields of a line: a number in decimal digits, and an end of a range as its posit and its mark.
ghost use Rattle.std.specs.Prelude.{◌≡◌, ◌+◌, ◌≤◌, ◌<◌, ◌++◌, length};
ghost use Rattle.text.specs.Text.{digit, mark_byte, decimal, field, end_fields, range_fields};

use super::page::Page;
use itoa::Buffer;
use posit::inner::power::power;

const HEX_DIGITS: u64 = 16;

// A hexadecimal digit.
pub fn hex_digit(d: u64) -> char
    requires { d < 16 }
    ensures { result ≡ digit d }
{
    char::from_digit(d as u32, 16).unwrap()
}

// Closed or open.
pub fn mark_letter(mark: u64) -> char
    ensures { result ≡ mark_byte mark }
{
    if mark == 0 { 'c' } else { 'o' }
}

// A number, a space before it.
pub fn push_number(number: u32, page: &mut Page)
    requires { length page.old.bytes + length (field (decimal number)) ≤ 2048 }
    ensures { page.new.bytes ≡ page.old.bytes ++ field (decimal number) }
{
    let mut digits = Buffer::new();
    page.push(' ');
    page.push_str(digits.format(number));
}

// The posit of a tile and its mark, a space before each.
pub fn push_end(tile: u64, page: &mut Page)
    requires { length page.old.bytes + 7 ≤ 2048 }
    ensures { page.new.bytes ≡ page.old.bytes ++ end_fields tile }
{
    let posit = tile / 2;
    page.push(' ');
    for worth in [4096, 256, 16, 1] {
        page.push(hex_digit(posit / worth % HEX_DIGITS));
    }
    page.push(' ');
    page.push(mark_letter(tile % 2));
}

// Both ends of a range, a space before each field.
pub fn push_ends(n: u32, word: u64, page: &mut Page)
    requires { (n ≤ 16) × (length page.old.bytes + 14 ≤ 2048) }
    ensures { page.new.bytes ≡ page.old.bytes ++ range_fields n word }
{
    let tiles = power(n + 1);
    push_end(word / tiles, page);
    push_end(word % tiles, page);
}
