// What the layers above use of columns beside the public call; these functions may ask something of their caller.
pub mod divisor;
pub mod limits;
pub mod pairs;
pub mod plains;
