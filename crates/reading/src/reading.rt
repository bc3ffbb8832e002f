// Readings, pairs of 64-bit floats, come in as ranges, and ranges go out as floats with their marks.
ghost use Rattle.std.specs.Prelude.{◌≡◌, false};
ghost use Rattle.word.specs.Member.{Real};
ghost use Rattle.word.specs.Smallest.{IsAnswer};
ghost use Rattle.reading.specs.Reading.{Between, bad_reading, TakenIn, GoesOut, GivenOut};

use super::inner::float_end::{bad_reading, end_float, float_cell};
use call::place::LEFT;
use call::reason::Reason;
use call::refusal::Refusal;
use posit::inner::format::Format;
use word::inner::judge::judge_word;
use word::inner::span::{Span, top_cell, word_of};
use word::inner::word::{cells_of, end_tile, start_tile};

#[derive(Clone, Copy)]
pub struct Reading {
    pub low: f64,
    pub high: f64,
}

// What goes out; document 01 gives the empty mark beside the floats, so an empty range is no None.
#[derive(Clone, Copy)]
pub struct Outgoing {
    pub low: f64,
    pub high: f64,
    pub low_open: bool,
    pub high_open: bool,
    pub empty: bool,
}

// The word from the cell of low to the cell of high.
fn reading_word(f: Format, low: f64, high: f64) -> u64
    requires { bad_reading low high ≡ false }
    ensures { IsAnswer f.n f.es (Between low high) result }
{
    let lo = float_cell(f, low, 0);
    let hi = float_cell(f, high, top_cell(f.n));
    word_of(f, Span { lo, hi })
}

pub fn take_in(n: u32, es: u32, reading: Reading) -> Result<u64, Refusal>
    ensures { TakenIn n es reading result }
{
    let f = Format::new(n, es)?;
    let Reading { low, high } = reading;
    if bad_reading(low, high) {
        return Err(Reason::BadReading.at(LEFT));
    }
    Ok(reading_word(f, low, high))
}

// A real range as it goes out.
fn range_out(f: Format, a: u64) -> Outgoing
    requires { Real f.n a }
    ensures { GoesOut f.n f.es a result }
{
    let cells = cells_of(f, a);
    if cells.hi < cells.lo {
        return Outgoing {
            low: 0.0,
            high: 0.0,
            low_open: true,
            high_open: true,
            empty: true,
        };
    }
    let start = start_tile(f, a);
    let end = end_tile(f, a);
    Outgoing {
        low: end_float(f, true, start),
        high: end_float(f, false, end),
        low_open: start % 2 == 1,
        high_open: end % 2 == 1,
        empty: false,
    }
}

pub fn give_out(n: u32, es: u32, a: u64) -> Result<Outgoing, Refusal>
    ensures { GivenOut n es a result }
{
    let f = Format::new(n, es)?;
    judge_word(f, LEFT, a)?;
    Ok(range_out(f, a))
}
