// A decoded posit: zero, NaR, or a finite number that means sign · fraction · 2^scale; document 01 names the three cases.
#[derive(Clone, Copy, Debug, PartialEq, Eq)]
pub enum Decoded {
    Zero,
    Nar,
    Finite {
        negative: bool,
        scale: i32,
        fraction: u32,
    },
}
