// A magnitude brought near to another one, so that a double holds their sum, and it begins as the exact sum does.
ghost use Rattle.std.specs.Prelude.{◌≡◌, ◌-◌, ◌*◌, ◌^◌, ◌<◌, ◌≤◌, max, if◌then◌else◌};
ghost use Rattle.std.specs.Float.Ieee.{lt};

// The bits of 2^-26.
const BELOW: u64 = 0x3e50_0000_0000_0000;

// The greater of two doubles; the law of the library's `max` goes by cases of a NaN, and neither is one.
fn greater(x: f64, y: f64) -> f64
    ensures { result ≡ (if lt x y then y else x) }
{
    if x < y {
        return y;
    }
    x
}

// x, or twenty-six places below y where that is more.
pub fn raised(x: u64, y: u64) -> u64
    requires { (2 ^ 52 ≤ x) × (x < 2047 * 2 ^ 52) × (27 * 2 ^ 52 ≤ y) × (y < 2047 * 2 ^ 52) }
    ensures { result ≡ max x (y - 26 * 2 ^ 52) }
{
    let least = f64::from_bits(y) * f64::from_bits(BELOW);
    greater(f64::from_bits(x), least).to_bits()
}
