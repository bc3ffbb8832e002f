// Readings: floats come in as the smallest range that holds what lies between them, and a range goes out as its two ends.
#![tactic(auto)]

pub mod inner;
pub mod reading;
