// A finite number other than 0: sign · fraction · 2^scale, as small as a decoded posit's is in any format.
ghost use Rattle.posit.specs.SmallForm.{SmallForm};

// Scales are counted from 2^-UNIT_BITS, below that of every posit.
pub const UNIT_BITS: i32 = 56;

#[derive(Clone, Copy, Debug, PartialEq, Eq)]
pub struct Finite {
    pub negative: bool,
    pub scale: i32,
    pub fraction: u32,
    pub ghost small: { SmallForm scale fraction },
}
