//! Texts by name.

use std::alloc::{AllocError, Global};

/// Short ones.
pub const ROWS: &[(&str, &[u8])] = &[
    ("a minus sign and a zero", b"i-0e"),
    ("a key below the one before", b"d1:bi1e1:ai2ee"),
    ("a key as the one before", b"d1:ai1e1:ai2ee"),
    ("a key above the one before", b"d1:ai1e1:bi2ee"),
    ("a key that goes on from the one before", b"d1:ai1e2:aai2ee"),
    ("an empty key behind another", b"d1:bi1e0:i2ee"),
    ("a short key behind a byte 255", b"d1:\xffi1e1:"),
    ("a key that must be 255 and more", b"d1:\xffi1e2:\xfe"),
    ("a leading zero", b"i00e"),
    ("a length with a leading zero", b"01:a"),
    ("a length past the text", b"2:a"),
    ("a text with more behind it", b"1:ab"),
    ("the greatest number", b"i9223372036854775807e"),
    ("one above it", b"i9223372036854775808e"),
    ("the least number", b"i-9223372036854775808e"),
    ("one below it", b"i-9223372036854775809e"),
    ("an end alone", b"e"),
    ("a key without a value", b"d1:ae"),
    ("a number as a key", b"di1e1:ae"),
];

/// A text that is too long to write out.
#[derive(Clone, Copy)]
pub enum Large {
    /// So many lists in one another, with their ends.
    Lists(usize),
    /// A head and so many bytes.
    String(&'static [u8], usize),
}

/// Long ones.
pub const LARGE: &[(&str, Large)] = &[
    ("8 lists", Large::Lists(8)),
    ("9 lists", Large::Lists(9)),
    ("65,536 bytes", Large::String(b"65536:", 65_536)),
    ("65,537 bytes", Large::String(b"65537:", 65_537)),
    ("one byte less", Large::String(b"65536:", 65_535)),
];

impl Large {
    pub fn text(self, alloc: Global) -> Result<Vec<u8>, AllocError> {
        let mut text = Vec::new(alloc);
        match self {
            Large::Lists(depth) => {
                push_all(&mut text, b'l', depth)?;
                push_all(&mut text, b'e', depth)?;
            }
            Large::String(head, length) => {
                text.extend_from_slice(head)?;
                push_all(&mut text, b'x', length)?;
            }
        }
        Ok(text)
    }
}

/// A byte comes so many times more.
fn push_all(text: &mut Vec<u8>, byte: u8, count: usize) -> Result<(), AllocError> {
    for _ in 0..count {
        text.push(byte)?;
    }
    Ok(())
}
