/// A line and a column, from 1 on.
#[derive(Clone, Copy)]
pub(crate) struct Place {
    pub line: u64,
    pub column: u64,
}

/// Returns the place of the byte that follows these, which are UTF-8.
pub(crate) fn place_after(bytes: &[u8]) -> Place {
    let mut line: u64 = 1;
    let mut column: u64 = 1;
    for byte in bytes {
        if *byte == b'\n' {
            line = line.saturating_add(1);
            column = 1;
        } else if *byte & 0xC0 != 0x80 {
            column = column.saturating_add(1);
        }
    }
    Place { line, column }
}
