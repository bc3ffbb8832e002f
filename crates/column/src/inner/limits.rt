// The tests of a call on columns before any word is read, all at place 0: its format, its operation, the columns' lengths and the room.
ghost use Rattle.call.specs.Verdict.{first_hit, Answers};
ghost use Rattle.column.specs.Column.{column_limits};
ghost use Rattle.column.specs.Taken.{IsCallOf};

use call::operation::Operation;
use call::place::LEFT;
use call::reason::Reason;
use call::refusal::Refusal;
use posit::inner::format::Format;

pub const LONGEST_COLUMN: usize = 4096;

// The format and the operation of a call on columns of these lengths, written from a row on.
pub fn judge_columns(
    n: u32,
    es: u32,
    op: u8,
    left: usize,
    right: usize,
    row: usize,
    lent: usize,
) -> Result<(Format, Operation), Refusal>
    ensures { Answers (first_hit (column_limits n es op left right row lent)) (IsCallOf n es op) result }
{
    let f = Format::new(n, es)?;
    let op = Operation::try_from(op)?;
    if left != right {
        return Err(Reason::WrongLength.at(LEFT));
    }
    if LONGEST_COLUMN < left {
        return Err(Reason::WrongLength.at(LEFT));
    }
    if lent < row {
        return Err(Reason::NoRoom.at(LEFT));
    }
    if lent - row < left {
        return Err(Reason::NoRoom.at(LEFT));
    }
    Ok((f, op))
}
