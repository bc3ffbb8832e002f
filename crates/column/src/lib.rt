// Two columns of ranges combined pair by pair into a lent column: answered, or refused by number and place.
#![tactic(auto)]

pub mod columns;
pub mod inner;
