// The cells of all products, or of all quotients, of two parts above 0.
ghost use Rattle.std.specs.Prelude.{◌≡◌, ◌≤◌};
ghost use Rattle.word.specs.Spans.{top_cell};
ghost use Rattle.signs.specs.Signs.{EdgeAbove, first_cell, last_cell, PartAbove, positive_some, positive_results};

use super::edge::{Edge, end_edge, start_edge};
use super::scaling::Scaling;
use posit::inner::choose::chosen;
use posit::inner::format::Format;
use posit::inner::power::power32;
use word::inner::span::{Span, no_cells, top_cell};

// The first cell of the results that start at two ends: the cell of a result, or the gap above it unless both ends are closed. It is inlined, as is
// the next, so that no end goes through memory.
#[inline]
fn first_cell<S: Scaling>(f: Format, x: Edge, y: Edge) -> u32
    requires { (EdgeAbove f.n x) × (EdgeAbove f.n y) }
    ensures { result ≡ first_cell f.n f.es S.divides x y }
{
    if x.unlimited || y.unlimited {
        return power32(f.n);
    }
    let cell = S::cell(f, x.posit, y.posit);
    chosen(u32::from(x.closed & y.closed), 2 * ((cell + 1) / 2), cell)
}

// The last cell of the results that end at two ends: the cell of a result, or the gap below it unless both ends are closed.
#[inline]
pub fn last_cell<S: Scaling>(f: Format, x: Edge, y: Edge) -> u32
    requires { (EdgeAbove f.n x) × (EdgeAbove f.n y) }
    ensures { result ≡ last_cell f.n f.es S.divides x y }
{
    if x.unlimited || y.unlimited {
        return top_cell(f.n);
    }
    let cell = S::cell(f, x.posit, y.posit);
    chosen(u32::from(x.closed & y.closed), 2 * (cell / 2), cell)
}

// The results of two parts that have members.
pub fn results_above<S: Scaling>(f: Format, p: Span, q: Span) -> Span
    requires { (PartAbove f.n p) × (PartAbove f.n q) × (p.lo ≤ top_cell f.n) × (q.lo ≤ top_cell f.n) }
    ensures { result ≡ positive_some f.n f.es S.divides p q }
{
    Span {
        lo: first_cell::<S>(f, start_edge(f, p.lo), S::first_edge(f, q)),
        hi: last_cell::<S>(f, end_edge(f, p.hi), S::last_edge(f, q)),
    }
}

// The results of two parts; none where either is.
pub fn positive_results<S: Scaling>(f: Format, p: Span, q: Span) -> Span
    requires { (PartAbove f.n p) × (PartAbove f.n q) }
    ensures { result ≡ positive_results f.n f.es S.divides p q }
{
    let top = top_cell(f.n);
    if top < p.lo {
        return no_cells(f.n);
    }
    if top < q.lo {
        return no_cells(f.n);
    }
    results_above::<S>(f, p, q)
}
