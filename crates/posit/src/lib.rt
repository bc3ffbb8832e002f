// Posits of 3 to 16 bits with exponent sizes 0 to 2: each call is answered, or refused by number and place.
#![tactic(auto)]

pub mod compare;
pub mod decode;
pub mod decoded;
pub mod encode;
pub mod float;
pub mod from_float;
pub mod inner;
pub mod negate;
pub mod operate;
pub mod to_float;
