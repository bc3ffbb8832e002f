// The four operations on two ranges: the smallest range that holds all exact results.
ghost use Rattle.call.specs.Operation.{plus, minus, times, over, number_of};
ghost use Rattle.word.specs.Calls.{OperationOf};
ghost use Rattle.call.specs.Verdict.{Answers};
ghost use Rattle.word.specs.Refusal.{verdict_of_operands};
ghost use Rattle.word.specs.Smallest.{IsAnswer, Result as Results};

use call::operation::Operation;
use call::place::RIGHT;
use call::reason::Reason;
use call::refusal::Refusal;
use cell::inner::add::{add_cells, subtract_word};
use posit::inner::format::Format;
use signs::inner::divide::divide_cells;
use signs::inner::multiply::multiply_cells;
use signs::inner::signs::has_zero;
use word::inner::operands::take_words;

// The operands judged and taken apart, and then the operation; a divisor with 0 as a member is refused.
fn judged(f: Format, op: Operation, a: u64, b: u64) -> Result<u64, Refusal>
    ensures { Answers (verdict_of_operands f.n f.es (number_of op) a b) (IsAnswer f.n f.es (Results f.n f.es (number_of op) a b)) result }
{
    let (left, right) = take_words(f, a, b)?;
    let word = match op {
        Operation::Add => add_cells(f, left, right),
        Operation::Subtract => subtract_word(f, left, b),
        Operation::Multiply => multiply_cells(f, left, right),
        Operation::Divide => {
            if has_zero(f, right) {
                return Err(Reason::ZeroDivisor.at(RIGHT));
            }
            divide_cells(f, left, right)
        }
    };
    Ok(word)
}

// The sums.
pub fn add(n: u32, es: u32, a: u64, b: u64) -> Result<u64, Refusal>
    ensures { OperationOf n es plus a b result }
{
    judged(Format::new(n, es)?, Operation::Add, a, b)
}

// The differences.
pub fn subtract(n: u32, es: u32, a: u64, b: u64) -> Result<u64, Refusal>
    ensures { OperationOf n es minus a b result }
{
    judged(Format::new(n, es)?, Operation::Subtract, a, b)
}

// The products.
pub fn multiply(n: u32, es: u32, a: u64, b: u64) -> Result<u64, Refusal>
    ensures { OperationOf n es times a b result }
{
    judged(Format::new(n, es)?, Operation::Multiply, a, b)
}

// The quotients.
pub fn divide(n: u32, es: u32, a: u64, b: u64) -> Result<u64, Refusal>
    ensures { OperationOf n es over a b result }
{
    judged(Format::new(n, es)?, Operation::Divide, a, b)
}

// The operation of a number: 0 add, 1 subtract, 2 multiply, 3 divide.
pub fn operate(n: u32, es: u32, op: u8, a: u64, b: u64) -> Result<u64, Refusal>
    ensures { OperationOf n es op a b result }
{
    let f = Format::new(n, es)?;
    judged(f, Operation::try_from(op)?, a, b)
}
