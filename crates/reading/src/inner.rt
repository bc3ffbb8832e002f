// The ends of readings; these functions may ask something of their caller.
pub mod float_end;
