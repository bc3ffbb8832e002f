// Decoding, exported.
ghost use Rattle.cabi.specs.Calls.{DecodesAs};

use super::shape::PositDecoding;
use posit::decode::decode;

#[unsafe(no_mangle)]
pub extern "C" fn jorumrain_posit_decode(n: u32, es: u32, p: u32) -> PositDecoding
    ensures { DecodesAs n es p result }
{
    decode(n, es, p).into()
}
