// What the layers above use of the cells of exact numbers; these functions may ask something of their caller.
pub mod add;
pub mod cell;
pub mod signed;
