// What the layers above use of words and cells beside the public calls; these functions may ask something of their caller.
pub mod cells;
pub mod judge;
pub mod operands;
pub mod span;
pub mod turn;
pub mod word;
