/// The byte range of an item, and the line in which it begins.
#[derive(Clone, Copy)]
pub struct Span {
    pub first: usize,
    pub past: usize,
    pub line: u64,
}
