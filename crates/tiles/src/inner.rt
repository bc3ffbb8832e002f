// What columns use of the ways by tiles; these functions may ask something of their caller.
pub mod across_results;
pub mod plain;
pub mod plain_results;
pub mod right;
pub mod spread;
