// The text that `sheetrows` prints, written into lent bytes.
#![tactic(auto)]

pub mod file_text;
pub mod inner;
