// Powers of two, the highest set bit, and the wrapping negation of a pattern.
ghost use Rattle.std.specs.Prelude.{◌≡◌, ◌+◌, ◌^◌, ◌<◌};
ghost use Rattle.posit.specs.Format as Spec;
ghost use Rattle.posit.specs.Parts.{HighestBit};

// 2^k in one word.
pub fn power(k: u32) -> u64
    requires { k < 64 }
    ensures { result ≡ 2 ^ k }
{
    1u64 << k
}

// 2^k in half a word; one function over both words would need a trait whose laws are longer than these two.
pub fn power32(k: u32) -> u32
    requires { k < 32 }
    ensures { result ≡ 2 ^ k }
{
    1u32 << k
}

// The place of the highest set bit of x.
pub fn highest_bit(x: u64) -> u32
    requires { 0 < x }
    ensures { HighestBit x result }
{
    x.ilog2()
}

// The pattern p of n bits negated, wrapping at n bits.
pub fn negated(n: u32, p: u32) -> u32
    requires { (n < 32) × (p < 2 ^ n) }
    ensures { result ≡ Spec.negated n p }
{
    0u32.wrapping_sub(p) % power32(n)
}
