// Negating, exported.
ghost use Rattle.cabi.specs.Calls.{NegatesAs};

use super::shape::PositAnswer;
use posit::negate::negate;

#[unsafe(no_mangle)]
pub extern "C" fn jorumrain_posit_negate(n: u32, es: u32, p: u32) -> PositAnswer
    ensures { NegatesAs n es p result }
{
    negate(n, es, p).into()
}
