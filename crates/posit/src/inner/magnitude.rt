// A magnitude above 0 that is known to a word.
ghost use Rattle.std.specs.Prelude.{◌^◌, ◌<◌, ◌≤◌};

// From g · 2^s / 2^a to below (g + 1) · 2^s / 2^a; on the lower end itself unless something was lost below,
// which is a digit more and no want of a value.
#[derive(Clone, Copy, Debug, PartialEq, Eq)]
pub struct Magnitude {
    pub g: u64,
    pub s: u64,
    pub a: u64,
    pub lost: bool,
    pub ghost g_from: { 2 ^ 16 ≤ g },
    pub ghost g_below: { g < 2 ^ 62 },
    pub ghost s_below: { s < 2 ^ 32 },
    pub ghost a_below: { a < 2 ^ 33 },
}
