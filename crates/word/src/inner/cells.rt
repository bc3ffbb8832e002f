// The three comparisons on the cells of two real ranges; cells hang on the width alone, so that any exponent size serves.
ghost use Rattle.std.specs.Prelude.{◌≤◌};
ghost use Rattle.word.specs.Member.{Real, Inside, Meets, Below};
ghost use Rattle.word.specs.Calls.{Tells};

use super::word::cells_of;
use posit::inner::format::Format;

pub fn cells_inside(n: u32, es: u32, a: u64, b: u64) -> bool
    requires { (3 ≤ n) × (n ≤ 16) × (Real n a) × (Real n b) }
    ensures { Tells (Inside n es a b) result }
{
    let f = Format { n, es: 0 };
    let x = cells_of(f, a);
    let y = cells_of(f, b);
    x.hi < x.lo || (y.lo <= x.lo && x.hi <= y.hi)
}

pub fn cells_meet(n: u32, es: u32, a: u64, b: u64) -> bool
    requires { (3 ≤ n) × (n ≤ 16) × (Real n a) × (Real n b) }
    ensures { Tells (Meets n es a b) result }
{
    let f = Format { n, es: 0 };
    let x = cells_of(f, a);
    let y = cells_of(f, b);
    x.lo <= x.hi && y.lo <= y.hi && x.lo <= y.hi && y.lo <= x.hi
}

pub fn cells_below(n: u32, es: u32, a: u64, b: u64) -> bool
    requires { (3 ≤ n) × (n ≤ 16) × (Real n a) × (Real n b) }
    ensures { Tells (Below n es a b) result }
{
    let f = Format { n, es: 0 };
    let x = cells_of(f, a);
    let y = cells_of(f, b);
    x.hi < x.lo || y.hi < y.lo || x.hi < y.lo
}
