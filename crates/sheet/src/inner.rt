// What the layers above use of sheets beside the public call; these functions may ask something of their caller.
pub mod limits;
pub mod steps;
