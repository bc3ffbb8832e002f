// Products and quotients of what lies above 0, as one kind of operation: they differ in the exact result and in the end of the right operand that counts.
ghost use Rattle.std.specs.Prelude.{◌≡◌, Bool, true, false, ◌<◌};
ghost use Rattle.posit.specs.Format as Spec;
ghost use Rattle.signs.specs.Signs.{first_edge, last_edge, CellAbove};
ghost use Rattle.cell.specs.Cells.{result_cell};

use super::edge::{Edge, end_edge, start_edge};
use cell::inner::cell::above_zero;
use code::inner::form::code_of;
use code::inner::product::product;
use code::inner::quotient::quotient;
use code::inner::step::step_of;
use posit::inner::format::Format;
use word::inner::span::Span;

pub trait Scaling {
    // Whether it is a quotient.
    ghost divides: { Bool };

    // The cell of the result of two posits above 0.
    fn cell(f: Format, p: u32, q: u32) -> u32
        requires { (0 < p) × (p < Spec.nar f.n) × (0 < q) × (q < Spec.nar f.n) }
        ensures { result ≡ result_cell f.n f.es divides p q };

    // The end of the right operand where the results start.
    fn first_edge(f: Format, q: Span) -> Edge
        requires { (CellAbove f.n q.lo) × (CellAbove f.n q.hi) }
        ensures { result ≡ first_edge f.n divides q };

    // The one where they end.
    fn last_edge(f: Format, q: Span) -> Edge
        requires { (CellAbove f.n q.lo) × (CellAbove f.n q.hi) }
        ensures { result ≡ last_edge f.n divides q };
}

// Products start at the product of both starts, and end at that of both ends.
#[derive(Clone, Copy, Debug, PartialEq, Eq)]
pub struct Product;

impl Scaling for Product {
    ghost divides = { false };

    fn cell(f: Format, p: u32, q: u32) -> u32 {
        above_zero(f, step_of(f, product(f, code_of(f, p), code_of(f, q))))
    }

    fn first_edge(f: Format, q: Span) -> Edge {
        start_edge(f, q.lo)
    }

    fn last_edge(f: Format, q: Span) -> Edge {
        end_edge(f, q.hi)
    }
}

// Quotients start at the start over the end, and end at the end over the start.
#[derive(Clone, Copy, Debug, PartialEq, Eq)]
pub struct Quotient;

impl Scaling for Quotient {
    ghost divides = { true };

    fn cell(f: Format, p: u32, q: u32) -> u32 {
        above_zero(f, step_of(f, quotient(f, code_of(f, p), code_of(f, q))))
    }

    fn first_edge(f: Format, q: Span) -> Edge {
        end_edge(f, q.hi)
    }

    fn last_edge(f: Format, q: Span) -> Edge {
        start_edge(f, q.lo)
    }
}
