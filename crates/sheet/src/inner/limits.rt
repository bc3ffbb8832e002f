// The tests of a sheet before any word or step is read, all at place 0: its format, its size and the room.
ghost use Rattle.call.specs.Verdict.{first_hit, Answers};
ghost use Rattle.sheet.specs.Sheet.{sheet_limits};
ghost use Rattle.posit.specs.Formats.{IsOf};

use call::place::LEFT;
use call::reason::Reason;
use call::refusal::Refusal;
use posit::inner::format::Format;

pub const MOST_INPUTS: usize = 32;

pub const MOST_STEPS: usize = 64;

pub const STEP_BYTES: usize = 3;

// The format of a sheet of so many inputs and bytes of steps.
pub fn judge_sheet(
    n: u32,
    es: u32,
    inputs: usize,
    bytes: usize,
    lent: usize,
) -> Result<Format, Refusal>
    ensures { Answers (first_hit (sheet_limits n es inputs bytes lent)) (IsOf n es) result }
{
    let f = Format::new(n, es)?;
    if MOST_INPUTS < inputs {
        return Err(Reason::WrongLength.at(LEFT));
    }
    if MOST_STEPS < bytes / STEP_BYTES {
        return Err(Reason::WrongLength.at(LEFT));
    }
    if bytes % STEP_BYTES != 0 {
        return Err(Reason::WrongLength.at(LEFT));
    }
    if lent < inputs + bytes / STEP_BYTES {
        return Err(Reason::NoRoom.at(LEFT));
    }
    Ok(f)
}
