// What the ranges use; these functions may ask something of their caller.
pub mod flip;
pub mod form;
pub mod product;
pub mod quotient;
pub mod raised;
pub mod step;
pub mod sum;
