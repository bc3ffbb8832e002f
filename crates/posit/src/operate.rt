// The four operations on two posits: the exact result of their values, rounded once.
ghost use Rattle.std.specs.Prelude.{◌≡◌, ◌^◌, ◌<◌};
ghost use Rattle.call.specs.Operation.{plus, minus, times, over, number_of};
ghost use Rattle.call.specs.Verdict.{Answers};
ghost use Rattle.posit.specs.Operation.{Operates, OperationOf};
ghost use Rattle.posit.specs.Refusal.{verdict_of_posits};

use super::inner::add::{add_posits, subtract_posits};
use super::inner::divide::divide_posits;
use super::inner::format::Format;
use super::inner::judge::judge_posits;
use super::inner::multiply::multiply_posits;
use call::operation::Operation;
use call::refusal::Refusal;

fn worked(f: Format, op: Operation, p: u32, q: u32) -> u32
    requires { (p < 2 ^ f.n) × (q < 2 ^ f.n) }
    ensures { Operates f.n f.es (number_of op) p q result }
{
    match op {
        Operation::Add => add_posits(f, p, q),
        Operation::Subtract => subtract_posits(f, p, q),
        Operation::Multiply => multiply_posits(f, p, q),
        Operation::Divide => divide_posits(f, p, q),
    }
}

// The operands judged, and then the operation.
fn judged(f: Format, op: Operation, p: u32, q: u32) -> Result<u32, Refusal>
    ensures { Answers (verdict_of_posits f.n p q) (Operates f.n f.es (number_of op) p q) result }
{
    judge_posits(f, p, q)?;
    Ok(worked(f, op, p, q))
}

// The sum.
pub fn add(n: u32, es: u32, p: u32, q: u32) -> Result<u32, Refusal>
    ensures { OperationOf n es plus p q result }
{
    judged(Format::new(n, es)?, Operation::Add, p, q)
}

// The difference.
pub fn subtract(n: u32, es: u32, p: u32, q: u32) -> Result<u32, Refusal>
    ensures { OperationOf n es minus p q result }
{
    judged(Format::new(n, es)?, Operation::Subtract, p, q)
}

// The product.
pub fn multiply(n: u32, es: u32, p: u32, q: u32) -> Result<u32, Refusal>
    ensures { OperationOf n es times p q result }
{
    judged(Format::new(n, es)?, Operation::Multiply, p, q)
}

// The quotient.
pub fn divide(n: u32, es: u32, p: u32, q: u32) -> Result<u32, Refusal>
    ensures { OperationOf n es over p q result }
{
    judged(Format::new(n, es)?, Operation::Divide, p, q)
}

// The operation of a number: 0 add, 1 subtract, 2 multiply, 3 divide.
pub fn operate(n: u32, es: u32, op: u8, p: u32, q: u32) -> Result<u32, Refusal>
    ensures { OperationOf n es op p q result }
{
    let f = Format::new(n, es)?;
    judged(f, Operation::try_from(op)?, p, q)
}
