// Exact results of posits above 0 in one word: the code of a posit, of a product, a quotient and a sum, and the place of each among the posits.
#![tactic(auto)]

pub mod inner;
