use std::alloc::Global;

/// A file by its minor version and the words of its data, which comes after the header.
#[derive(Clone, Copy)]
pub struct Sample<'a> {
    pub minor: u8,
    pub words: &'a [u32],
}

/// The header of a file of format 1, up to its minor version.
const HEADER: [u8; 17] = [
    0x20, 0x00, 0xDA, 0x27, 0x14, 0x00, 0x00, 0x00, 0x00, 0x00, 0x02, 0x00, 0x52, 0x65, 0x73, 0x42,
    0x01,
];

/// `root{a{"b"}}`.
pub const ONE_STRING: Sample<'static> = Sample {
    minor: 1,
    words: &[
        0x20000009, 5, 7, 11, 11, 1, 0xAAAA0061, 1, 98, 0x00180001, 7,
    ],
};

/// `de:table(nofallback){a{"b"}}`.
pub const ONE_STRING_WITHOUT_FALLBACK: Sample<'static> = Sample {
    minor: 2,
    words: &[
        0x2000000A, 6, 8, 12, 12, 1, 1, 0xAAAA0061, 1, 98, 0x001C0001, 8,
    ],
};

/// A file with an item of each type: a String `x`, a Binary, an Alias `de`, an Int -3, the numbers
/// 1 and -1, an Array of an Int and the String, a table and a long table.
pub const EVERY_TYPE: Sample<'static> = Sample {
    minor: 1,
    words: &[
        0x2000001E, 5, 10, 43, 43, 8, 0x00620061, 0x00640063, 0x00660065, 0x00680067, 1, 120, 3,
        0xAA7FFF00, 2, 0x00650064, 0xAAAA0000, 2, 1, 0xFFFFFFFF, 2, 0x70000005, 10, 0x00180001,
        0x70000007, 2, 26, 28, 0x1000000C, 0x80000014, 0x00180008, 0x001C001A, 0x0020001E,
        0x00240022, 0xAAAA0026, 10, 0x1000000C, 0x3000000E, 0x7FFFFFFD, 0xE0000011, 0x80000014,
        0x20000017, 0x40000019,
    ],
};

/// Adds words to a file. Returns None if memory runs out.
fn put_words(file: &mut Vec<u8>, words: &[u32]) -> Option<()> {
    for word in words {
        file.extend_from_slice(&word.to_le_bytes()).ok()?;
    }
    Some(())
}

fn front(alloc: Global, minor: u8) -> Option<Vec<u8>> {
    let mut file = HEADER.to_vec(alloc).ok()?;
    file.push(minor).ok()?;
    file.extend_from_slice(&[0; 14]).ok()?;
    Some(file)
}

pub fn bytes_of(alloc: Global, sample: Sample<'_>) -> Option<Vec<u8>> {
    let mut file = front(alloc, sample.minor)?;
    put_words(&mut file, sample.words)?;
    Some(file)
}

/// Returns the file of a table with one alias, at `a`, of twice this many letters.
pub fn file_of_alias(alloc: Global, pairs: u16) -> Option<Vec<u8>> {
    let letters = vec![in alloc; 0x0078_0078u32; pairs as usize].ok()?;
    let table = 9 + pairs as u32;
    let top = table + 2;
    let mut file = front(alloc, 1)?;
    put_words(&mut file, &[0x2000_0000 + table, 5, 7, top, top, 1])?;
    put_words(&mut file, &[0xAAAA_0061, 2 * pairs as u32])?;
    put_words(&mut file, letters.as_slice())?;
    put_words(&mut file, &[0xAAAA_0000, 0x0018_0001, 0x3000_0007])?;
    Some(file)
}
