// The cell of an exact number, and the cells of sums.
#![tactic(auto)]

pub mod inner;
