// Products and quotients of ranges by the signs of their members.
#![tactic(auto)]

pub mod inner;
