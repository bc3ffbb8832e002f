// The four operations on ranges, exported.
ghost use Rattle.cabi.specs.RangeCalls.{OperatesAs};

use super::range_shape::RangeAnswer;
use range::operate::operate;

#[unsafe(no_mangle)]
pub extern "C" fn jorumrain_range_operate(n: u32, es: u32, op: u8, a: u64, b: u64) -> RangeAnswer
    ensures { OperatesAs n es op a b result }
{
    operate(n, es, op, a, b).into()
}
