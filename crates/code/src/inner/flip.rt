// A word and its complement, chosen without a jump.
ghost use Rattle.std.specs.Prelude.{◌≡◌, ◌-◌, ◌^◌, ◌≤◌};
ghost use Rattle.posit.specs.Parts.{chosen_by};

// x where the mark is 0, and all its bits turned over where it is 1.
pub fn flipped(mark: u64, x: u64) -> u64
    requires { mark ≤ 1 }
    ensures { result ≡ chosen_by mark x (2 ^ 64 - 1 - x) }
{
    x ^ mark.wrapping_neg()
}
