// A size with its sign apart.
#[derive(Clone, Copy, Debug, PartialEq, Eq)]
pub struct Signed<T> {
    pub negative: bool,
    pub size: T,
}
