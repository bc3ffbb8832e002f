// The three comparisons of ranges, exported.
ghost use Rattle.word.specs.Member.{Inside, Meets, Below};
ghost use Rattle.cabi.specs.RangeCalls.{ComparesAs};

use super::range_shape::RangeReply;
use word::compare::{below, inside, meets};

// Each member of a is in b.
#[unsafe(no_mangle)]
pub extern "C" fn jorumrain_range_inside(n: u32, es: u32, a: u64, b: u64) -> RangeReply
    ensures { ComparesAs Inside n es a b result }
{
    inside(n, es, a, b).into()
}

// Some member is in both.
#[unsafe(no_mangle)]
pub extern "C" fn jorumrain_range_meets(n: u32, es: u32, a: u64, b: u64) -> RangeReply
    ensures { ComparesAs Meets n es a b result }
{
    meets(n, es, a, b).into()
}

// Each member of a is less than each of b.
#[unsafe(no_mangle)]
pub extern "C" fn jorumrain_range_below(n: u32, es: u32, a: u64, b: u64) -> RangeReply
    ensures { ComparesAs Below n es a b result }
{
    below(n, es, a, b).into()
}
