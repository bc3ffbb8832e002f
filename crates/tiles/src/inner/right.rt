// Which tiles of the right word decide products and quotients: a product starts at its start, a quotient at its end.
ghost use Rattle.std.specs.Prelude.{◌≡◌, ◌<◌};
ghost use Rattle.word.specs.Word.{words};
ghost use Rattle.tiles.specs.Scaled as Spec;

use posit::inner::format::Format;
use signs::inner::scaling::{Product, Quotient, Scaling};
use word::inner::word::{end_tile, start_tile};

pub trait RightTiles: Scaling {
    // The tile at which the results start.
    fn first_tile(f: Format, w: u64) -> u32
        requires { w < words f.n }
        ensures { result ≡ Spec.first_tile f.n Self.divides w };

    // The one at which they end.
    fn last_tile(f: Format, w: u64) -> u32
        requires { w < words f.n }
        ensures { result ≡ Spec.last_tile f.n Self.divides w };
}

impl RightTiles for Product {
    fn first_tile(f: Format, w: u64) -> u32 {
        start_tile(f, w)
    }

    fn last_tile(f: Format, w: u64) -> u32 {
        end_tile(f, w)
    }
}

impl RightTiles for Quotient {
    fn first_tile(f: Format, w: u64) -> u32 {
        end_tile(f, w)
    }

    fn last_tile(f: Format, w: u64) -> u32 {
        start_tile(f, w)
    }
}
