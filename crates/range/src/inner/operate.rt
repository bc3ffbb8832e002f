// The operation on two real ranges; apart from the public calls, which have taken their words apart before they choose.
ghost use Rattle.std.specs.Prelude.{◌≡◌};
ghost use Rattle.call.specs.Operation.{number_of};
ghost use Rattle.word.specs.Member.{Real};
ghost use Rattle.word.specs.Computed.{answer_of};

use call::operation::Operation;
use cell::inner::add::{add_ranges, subtract_ranges};
use posit::inner::format::Format;
use signs::inner::divide::divide_ranges;
use signs::inner::multiply::multiply_ranges;

pub fn operate_words(f: Format, op: Operation, a: u64, b: u64) -> u64
    requires { (Real f.n a) × (Real f.n b) }
    ensures { result ≡ answer_of f.n f.es (number_of op) a b }
{
    match op {
        Operation::Add => add_ranges(f, a, b),
        Operation::Subtract => subtract_ranges(f, a, b),
        Operation::Multiply => multiply_ranges(f, a, b),
        Operation::Divide => divide_ranges(f, a, b),
    }
}
