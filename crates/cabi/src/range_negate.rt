// The negation of a range, exported.
ghost use Rattle.cabi.specs.RangeCalls.{NegatesAs};

use super::range_shape::RangeAnswer;
use word::negate::negate;

#[unsafe(no_mangle)]
pub extern "C" fn jorumrain_range_negate(n: u32, es: u32, a: u64) -> RangeAnswer
    ensures { NegatesAs n es a result }
{
    negate(n, es, a).into()
}
