// A posit with its sign apart, its size by its code.
ghost use Rattle.std.specs.Prelude.{◌<◌};
ghost use Rattle.posit.specs.Format.{Finite};
ghost use Rattle.cell.specs.Cells.{SignedOf};

use code::inner::form::code_of;
use posit::inner::choose::chosen;
use posit::inner::format::Format;
use posit::inner::power::{negated, power32};
use posit::inner::signed::Signed;

// A finite posit other than 0: above NaR's pattern it is negative, and its size is that of the negated one.
pub fn signed_form(f: Format, p: u32) -> Signed<u64>
    requires { (Finite f.n p) × (0 < p) }
    ensures { SignedOf f.n f.es p result }
{
    let negative = power32(f.n - 1) <= p;
    let size = code_of(f, chosen(negative as u32, p, negated(f.n, p)));
    Signed { negative, size }
}
