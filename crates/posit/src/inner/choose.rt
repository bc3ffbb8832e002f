// A choice between two numbers without a jump: the mark is a digit of a number, not a comparison.
ghost use Rattle.std.specs.Prelude.{◌≡◌, ◌≤◌};
ghost use Rattle.posit.specs.Parts.{chosen_by};

// The first where the mark is 0, and the second where it is 1: the first, and the difference so many times.
pub fn chosen(mark: u32, first: u32, second: u32) -> u32
    requires { mark ≤ 1 }
    ensures { result ≡ chosen_by mark first second }
{
    first.wrapping_add(mark * second.wrapping_sub(first))
}
