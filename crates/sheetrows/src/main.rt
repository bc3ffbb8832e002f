// The program: reads a sheet file on standard input, and prints its rows or its refusal; what it could not read or write it says on standard error.
#![tactic(auto)]

ghost use Rattle.std.specs.Prelude.{◌≡◌, ◌≤◌, length};
ghost use Rattle.text.specs.FileText.{text_of_file};

use std::io::Read;
use text::file_text::{TEXT_BYTES, sheet_text};

// Says on standard error what went wrong; where that fails too, nobody is left to hear it.
fn say(rt: &HostRuntime, what: &str) {
    let _ = rt.eprintln(what);
}

// Prints the text of a file; no contract can speak of standard output, so this one asks that the bytes are the text.
fn print(rt: &HostRuntime, file: &[u8], text: &[u8])
    requires { text.now ≡ text_of_file file.now }
{
    if rt.write_all(text).is_err() {
        say(rt, "sheetrows: standard output could not be written");
    }
}

// One byte more than the longest sheet file, 9 + 32 * 8 + 64 * 3; a longer file has the text of these bytes (`long_text`, in `text`).
const ENOUGH: usize = 458;

// Reads until the bytes are full, the input ends or a read fails, which it says, and answers how many bytes arrived. Not by `io::copy`,
// which tries an interrupted read again and takes 8 KiB of stack.
fn read_file(rt: &HostRuntime, file: &mut [u8; ENOUGH]) -> usize
    ensures { result ≤ length file.new }
{
    let mut input = rt.stdin();
    let mut arrived: usize = 0;
    while arrived < ENOUGH {
        match input.read(&mut file[arrived..]) {
            Ok(0) => return arrived,
            Ok(more) => arrived += more,
            Err(_) => {
                say(rt, "sheetrows: standard input could not be read");
                return arrived;
            }
        }
    }
    arrived
}

fn main(rt: HostRuntime) {
    let mut file = [0u8; ENOUGH];
    let arrived = read_file(&rt, &mut file);
    let mut text = [0u8; TEXT_BYTES];
    let count = sheet_text(&file[..arrived], &mut text);
    print(&rt, &file[..arrived], &text[..count]);
}
