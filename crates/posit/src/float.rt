// A posit as a 64-bit float: its exact value, or the case NaR, so that no float NaN is made; document 01 names both, so it is no Option.
#[derive(Clone, Copy)]
pub enum Floated {
    Value(f64),
    Nar,
}
