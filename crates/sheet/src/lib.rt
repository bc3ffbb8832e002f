// Sheets of ranges worked into a lent column, and what is true along a whole sheet.
#![tactic(auto)]

pub mod inner;
pub mod sheets;
