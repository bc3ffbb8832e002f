// Comparing: posits order as signed patterns, NaR below all else.
ghost use Rattle.std.specs.Prelude.{◌^◌, ◌<◌};
ghost use Rattle.posit.specs.Comparing.{Compares, ComparisonOf};

use super::inner::format::Format;
use super::inner::judge::judge_posits;
use super::inner::power::power32;
use call::refusal::Refusal;
use std::cmp::Ordering;

// With the top bit turned over, signed patterns order as unsigned ones.
fn order_of(f: Format, p: u32, q: u32) -> Ordering
    requires { (p < 2 ^ f.n) × (q < 2 ^ f.n) }
    ensures { Compares f.n p q result }
{
    let half = power32(f.n - 1);
    let a = (p + half) % power32(f.n);
    let b = (q + half) % power32(f.n);
    a.cmp(&b)
}

pub fn compare(n: u32, es: u32, p: u32, q: u32) -> Result<Ordering, Refusal>
    ensures { ComparisonOf n es p q result }
{
    let f = Format::new(n, es)?;
    judge_posits(f, p, q)?;
    Ok(order_of(f, p, q))
}
