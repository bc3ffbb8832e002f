// The layout of a sheet file: its own tests, and its words.
ghost use Rattle.std.specs.Prelude.{◌≡◌, ◌*◌, ◌≤◌, length, take};
ghost use Rattle.call.specs.Verdict.{first_hit, Says};
ghost use Rattle.file.specs.File.{words_of, file_tests};

use call::place::LEFT;
use call::reason::Reason;
use call::refusal::Refusal;
use posit::inner::format::Format;
use sheet::inner::limits::{MOST_INPUTS, MOST_STEPS, STEP_BYTES};

// What a file begins with.
const MARK: &[u8] = b"RSH";

pub const HEAD_BYTES: usize = 9;

pub const WORD_BYTES: usize = 8;

// The places of the head's fields, behind the mark.
pub const VERSION_AT: usize = 3;

pub const N_AT: usize = 5;

pub const ES_AT: usize = 6;

pub const INPUTS_AT: usize = 7;

pub const STEPS_AT: usize = 8;

pub const VERSION: u16 = 1;

// The file's own tests, in their order.
pub fn judge_file(file: &[u8]) -> Result<(), Refusal>
    ensures { Says (first_hit (file_tests file.now)) result }
{
    if file.len() < HEAD_BYTES {
        return Err(Reason::BadFile.at(LEFT));
    }
    if !file.starts_with(MARK) {
        return Err(Reason::BadFile.at(LEFT));
    }
    if u16::from_le_bytes([file[VERSION_AT], file[VERSION_AT + 1]]) != VERSION {
        return Err(Reason::BadFile.at(LEFT));
    }
    Format::new(u32::from(file[N_AT]), u32::from(file[ES_AT]))?;
    let inputs = usize::from(file[INPUTS_AT]);
    if MOST_INPUTS < inputs {
        return Err(Reason::WrongLength.at(LEFT));
    }
    let steps = usize::from(file[STEPS_AT]);
    if MOST_STEPS < steps {
        return Err(Reason::WrongLength.at(LEFT));
    }
    if file.len() != HEAD_BYTES + WORD_BYTES * inputs + STEP_BYTES * steps {
        return Err(Reason::BadFile.at(LEFT));
    }
    Ok(())
}

// The first so many words of some bytes, eight bytes each, low byte first. By number into an array: pushed onto an `ArrayVec` they took a third longer.
pub fn read_words(count: usize, bytes: &[u8]) -> [u64; MOST_INPUTS]
    requires { (count ≤ 32) × (8 * count ≤ length bytes.now) }
    ensures { (length result ≡ 32) × (take count result ≡ words_of count bytes.now) }
{
    let (eights, _) = bytes.as_chunks::<WORD_BYTES>();
    let mut words = [0u64; MOST_INPUTS];
    for i in 0..count {
        words[i] = u64::from_le_bytes(eights[i]);
    }
    words
}
