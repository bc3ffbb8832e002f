// The page that a text is written on.
use crate::file_text::TEXT_BYTES;
use arrayvec::ArrayString;

// A text so far, with room for the longest. It is written by `push`, since `write!` has no clause that says that it succeeds.
pub type Page = ArrayString<TEXT_BYTES>;
