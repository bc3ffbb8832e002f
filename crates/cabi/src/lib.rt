// The calls on posits, ranges, columns and sheets for programs in Rust and C: enums as document 01's numbers, answers as plain structs.
#![tactic(auto)]

pub mod columns;
pub mod compare;
pub mod decode;
pub mod encode;
pub mod files;
pub mod from_float;
pub mod negate;
pub mod operate;
pub mod range_compare;
pub mod range_negate;
pub mod range_operate;
pub mod range_reading;
pub mod range_shape;
pub mod shape;
pub mod sheet_shape;
pub mod sheets;
pub mod to_float;
pub mod version;
