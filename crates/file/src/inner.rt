// What the layers above use of the layout; these functions may ask something of their caller.
pub mod layout;
