// Whether 0 is a member of a real range.
ghost use Rattle.std.specs.Prelude.{◌≡◌, pos};
ghost use Rattle.exact.specs.Fraction.{whole};
ghost use Rattle.word.specs.Member.{Real, is_member};

use super::signs;
use posit::inner::format::Format;
use word::inner::word::cells_of;

// The cell of 0 is one of the range's cells.
pub fn has_zero(f: Format, b: u64) -> bool
    requires { Real f.n b }
    ensures { result ≡ is_member f.n f.es b (whole (pos 0)) }
{
    signs::has_zero(f, cells_of(f, b))
}
