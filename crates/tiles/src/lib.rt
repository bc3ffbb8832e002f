// Operations on ranges with limits, above 0 or across it, by the tiles of their words alone.
#![tactic(auto)]

pub mod inner;
