// The place of a call's left or only operand, which is also that of a call that is done, and the place of its right one.
pub const LEFT: u32 = 0;

pub const RIGHT: u32 = 1;
