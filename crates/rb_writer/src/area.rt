/// The span of words that stores the keys: after the root item and the indexes, up to `top`.
#[derive(Clone, Copy)]
pub struct KeyArea {
    pub indexes: u32,
    pub top: u32,
}
