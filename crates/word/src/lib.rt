// Range words: what each means, comparisons and negation. Each call is answered, or refused by number and place.
#![tactic(auto)]

pub mod compare;
pub mod inner;
pub mod negate;
