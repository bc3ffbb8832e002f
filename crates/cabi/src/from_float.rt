// From a 64-bit float, exported.
ghost use Rattle.cabi.specs.Calls.{FloatsInAs};

use super::shape::PositAnswer;
use posit::from_float::from_float;

#[unsafe(no_mangle)]
pub extern "C" fn jorumrain_posit_from_float(n: u32, es: u32, x: f64) -> PositAnswer
    ensures { FloatsInAs n es x result }
{
    from_float(n, es, x).into()
}
