// Readings in and out, exported.
ghost use Rattle.cabi.specs.RangeCalls.{TakesInAs, GivesOutAs};

use super::range_shape::{RangeAnswer, RangeOutgoing};
use reading::reading::{Reading, give_out, take_in};

#[unsafe(no_mangle)]
pub extern "C" fn jorumrain_range_take_in(n: u32, es: u32, low: f64, high: f64) -> RangeAnswer
    ensures { TakesInAs n es low high result }
{
    take_in(n, es, Reading { low, high }).into()
}

#[unsafe(no_mangle)]
pub extern "C" fn jorumrain_range_give_out(n: u32, es: u32, a: u64) -> RangeOutgoing
    ensures { GivesOutAs n es a result }
{
    give_out(n, es, a).into()
}
