// Encoding, exported: the kind of the decoded posit by its number, with the parts of a finite one.
ghost use Rattle.cabi.specs.Calls.{EncodesAs};

use super::shape::{PositAnswer, to_decoded};
use posit::encode::encode;

#[unsafe(no_mangle)]
pub extern "C" fn jorumrain_posit_encode(
    n: u32,
    es: u32,
    kind: u32,
    negative: bool,
    scale: i32,
    fraction: u32,
) -> PositAnswer
    ensures { EncodesAs n es kind negative scale fraction result }
{
    encode(n, es, to_decoded(kind, negative, scale, fraction)).into()
}
