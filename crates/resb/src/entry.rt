/// A bundle of ICUDATA in a C program's memory: its locale, and the bytes of a text or a file.
#[repr(C)]
pub struct Entry<'a> {
    pub locale: &'a [u8],
    pub bytes: &'a [u8],
    pub is_text: bool,
}
