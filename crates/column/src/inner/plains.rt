// Columns of ranges above 0, or across it on the left: seen in one pass, and answered in another without a test of a single pair.
ghost use Rattle.std.specs.Prelude.{◌≡◌, true, ◌≢◌, ◌++◌, ◌≤◌, length, drop};
ghost use Rattle.call.specs.Operation.{minus, number_of};
ghost use Rattle.tiles.specs.Plain.{is_plain};
ghost use Rattle.tiles.specs.Spread.{is_spread};
ghost use Rattle.word.specs.Computed.{answer_of};
ghost use Rattle.column.specs.Column.{answers_of};
ghost use Rattle.column.specs.Plains.{all_plain, takes_plain_way};

use call::operation::Operation;
use posit::inner::format::Format;
use signs::inner::scaling::{Product, Quotient};
use tiles::inner::plain::plain_fault;
use tiles::inner::spread::{spread_fault, spread_results, spread_sum};

// The first number with the first bit of a word set.
const FIRST: u64 = 0x8000_0000_0000_0000;

// Whether every left word lies above 0 or across it, and every right one above it: all words are seen, and their faults joined, so that no test steers a jump.
pub fn all_plain(n: u32, left: &[u64], right: &[u64]) -> bool
    requires { (3 ≤ n) × (n ≤ 16) × (length left.now ≡ length right.now) }
    ensures { result ≡ all_plain n left.now right.now }
{
    let mut faults: u64 = 0;
    for (a, b) in left.iter().zip(right) {
        faults |= spread_fault(n, *a) | plain_fault(n, *b);
    }
    faults < FIRST
}

// Whether the columns can be answered without a test of each pair; the difference of two ranges above 0 may have either sign.
pub fn takes_plain_way(n: u32, op: u8, left: &[u64], right: &[u64]) -> bool
    requires { (3 ≤ n) × (n ≤ 16) × (length left.now ≡ length right.now) }
    ensures { result ≡ takes_plain_way n op left.now right.now }
{
    match Operation::try_from(op) {
        Ok(Operation::Subtract) => false,
        _ => all_plain(n, left, right),
    }
}

// One such pair; a difference has no such way and is not asked for.
pub fn plain_answer(f: Format, op: Operation, a: u64, b: u64) -> u64
    requires { (number_of op ≢ minus) × (is_spread f.n a ≡ true) × (is_plain f.n b ≡ true) }
    ensures { result ≡ answer_of f.n f.es (number_of op) a b }
{
    match op {
        Operation::Multiply => spread_results::<Product>(f, a, b),
        Operation::Add | Operation::Subtract => spread_sum(f, a, b),
        Operation::Divide => spread_results::<Quotient>(f, a, b),
    }
}

// The answers of such columns, written from the front; not by `write_answers` with a closure, which would be asked the same of both kinds of pairs.
pub fn write_plain(f: Format, op: Operation, left: &[u64], right: &[u64], out: &mut [u64])
    requires fits { (length left.now ≡ length right.now) × (length left.now ≤ length out.old) }
    requires plain { takes_plain_way f.n (number_of op) left.now right.now ≡ true }
    ensures { out.new ≡ answers_of f.n f.es (number_of op) left.now right.now ++ drop (length left.now) out.old }
{
    for (i, (a, b)) in left.iter().zip(right).enumerate() {
        out[i] = plain_answer(f, op, *a, *b);
    }
}
