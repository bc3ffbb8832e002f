// What the layers above use of products and quotients by signs; these functions may ask something of their caller.
pub mod divide;
pub mod edge;
pub mod mixed;
pub mod multiply;
pub mod one_sign;
pub mod parts;
pub mod scaling;
pub mod signs;
pub mod zero;
