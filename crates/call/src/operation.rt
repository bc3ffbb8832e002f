// The four operations, by their numbers; a number above the last names none.
ghost use Rattle.call.specs.Operation.{Names};

use super::reason::Reason;

#[derive(Clone, Copy, Debug, PartialEq, Eq)]
pub enum Operation {
    Add,
    Subtract,
    Multiply,
    Divide,
}

impl TryFrom<u8> for Operation {
    type Error = Reason;

    ghost try_from_gives = { Names };

    fn try_from(op: u8) -> Result<Operation, Reason> {
        match op {
            0 => Ok(Operation::Add),
            1 => Ok(Operation::Subtract),
            2 => Ok(Operation::Multiply),
            3 => Ok(Operation::Divide),
            4..=255 => Err(Reason::NoOperation),
        }
    }
}
