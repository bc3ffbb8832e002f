// The four operations, exported.
ghost use Rattle.cabi.specs.Calls.{OperatesAs};

use super::shape::PositAnswer;
use posit::operate::operate;

#[unsafe(no_mangle)]
pub extern "C" fn jorumrain_posit_operate(n: u32, es: u32, op: u8, p: u32, q: u32) -> PositAnswer
    ensures { OperatesAs n es op p q result }
{
    operate(n, es, op, p, q).into()
}
