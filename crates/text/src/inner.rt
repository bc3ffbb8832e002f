// Fields and lines put on a page one behind the other.
pub mod fields;
pub mod lines;
pub mod page;
