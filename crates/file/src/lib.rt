// The sheet file: its layout, and the sheet in it worked into a lent column.
#![tactic(auto)]

pub mod file;
pub mod inner;
