// To a 64-bit float, exported.
ghost use Rattle.cabi.specs.Calls.{FloatsOutAs};

use super::shape::PositFloating;
use posit::to_float::to_float;

#[unsafe(no_mangle)]
pub extern "C" fn jorumrain_posit_to_float(n: u32, es: u32, p: u32) -> PositFloating
    ensures { FloatsOutAs n es p result }
{
    to_float(n, es, p).into()
}
