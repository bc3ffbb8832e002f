// What the layers above use of the ranges beside the public calls; these functions may ask something of their caller.
pub mod operate;
