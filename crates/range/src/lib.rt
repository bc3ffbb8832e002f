// The four operations on ranges: each call is answered, or refused by number and place.
#![tactic(auto)]

pub mod inner;
pub mod operate;
