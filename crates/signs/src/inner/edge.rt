// The ends of a part above 0.
ghost use Rattle.std.specs.Prelude.{◌≡◌};
ghost use Rattle.signs.specs.Signs.{CellAbove};
ghost use Rattle.signs.specs.Signs as Spec;

use posit::inner::format::Format;
use posit::inner::power::power32;
use word::inner::span::top_cell;

// An end among the numbers above 0: no limit, or a posit that is a member itself or not. No Option of an end: a cell joins the marks of two edges as
// digits, without a jump.
#[derive(Clone, Copy, Debug, PartialEq, Eq)]
pub struct Edge {
    pub unlimited: bool,
    pub closed: bool,
    pub posit: u32,
}

// A part's start by its cell; no posit above 0 has a sign, so the number of a cell above that of 0 is enough.
pub fn start_edge(f: Format, cell: u32) -> Edge
    requires { CellAbove f.n cell }
    ensures { result ≡ Spec.start_edge f.n cell }
{
    let first = power32(f.n);
    Edge {
        unlimited: cell == first,
        closed: cell % 2 == 1,
        posit: (cell + 1 - first) / 2,
    }
}

// A part's end by its cell.
pub fn end_edge(f: Format, cell: u32) -> Edge
    requires { CellAbove f.n cell }
    ensures { result ≡ Spec.end_edge f.n cell }
{
    Edge {
        unlimited: cell == top_cell(f.n),
        closed: cell % 2 == 1,
        posit: (cell + 2 - power32(f.n)) / 2,
    }
}
