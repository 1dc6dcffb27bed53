/// The position of a bundle's root item: the size of the file's header, and word 0 of the data.
#[derive(Clone, Copy)]
pub struct RootPlace {
    pub header: u16,
    pub word: u32,
}
