// Comparing, exported.
ghost use Rattle.cabi.specs.Calls.{ComparesAs};

use super::shape::PositComparison;
use posit::compare::compare;

#[unsafe(no_mangle)]
pub extern "C" fn jorumrain_posit_compare(n: u32, es: u32, p: u32, q: u32) -> PositComparison
    ensures { ComparesAs n es p q result }
{
    compare(n, es, p, q).into()
}
