// Whether a word is a range above 0 with a member and an upper limit, told without a jump.
ghost use Rattle.std.specs.Prelude.{◌≡◌, ◌^◌, ◌≤◌, nat_lt};
ghost use Rattle.tiles.specs.Plain.{is_plain};

use posit::inner::power::power;

// The tile of an open 0, at which a plain range may start.
pub const OPEN_ZERO: u32 = 1;

// The place of a word's first bit, which says that a number is 2^63 or more.
pub const FIRST_PLACE: u32 = 63;

// Below 2^63 exactly where a word is such a range: each number joined here passes it where one test fails, that of the start, of the order, and of the end.
pub fn plain_fault(n: u32, w: u64) -> u64
    requires { (3 ≤ n) × (n ≤ 16) }
    ensures { nat_lt result (2 ^ 63) ≡ is_plain n w }
{
    let all = power(n + 1);
    let start = w / all;
    let open = w % 2;
    // the end tile, less two where it is open: below 0 for an open 0
    let end = (w % all - open).wrapping_sub(open);
    start.wrapping_sub(OPEN_ZERO as u64) | end.wrapping_sub(start) | (w << (FIRST_PLACE - n))
}
