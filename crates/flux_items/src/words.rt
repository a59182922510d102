//! Names of sources.

ghost use Rattle.std.specs.Prelude.{◌≡◌, ◌≤◌, ◌↔◌, IsTrue, length};
ghost use Rattle.std.specs.List.{prefix_len, list_all, list_any};
ghost use Rattle.std.specs.Str.{bytes_eq};
ghost use Rattle.flux_values.specs.Identifiers.{is_word_start, is_word_byte, is_word, reserved_words, IsIdentifier};

fn is_word_start(byte: u8) -> bool
    ensures { result ≡ is_word_start byte }
{
    byte.is_ascii_alphabetic() || byte == b'_'
}

fn is_word_byte(byte: u8) -> bool
    ensures { result ≡ is_word_byte byte }
{
    is_word_start(byte) || byte.is_ascii_digit()
}

/// How many bytes of words are at the front.
pub fn word_length(text: &[u8]) -> usize
    ensures value { result ≡ prefix_len is_word_byte text.now }
    ensures within { result ≤ length text.now }
{
    text.iter().take_while(|byte| is_word_byte(**byte)).count()
}

fn are_word_bytes(bytes: &[u8]) -> bool
    ensures { result ≡ list_all is_word_byte bytes.now }
{
    bytes.iter().all(|byte| is_word_byte(*byte))
}

fn is_word(name: &[u8]) -> bool
    ensures { result ≡ is_word name.now }
{
    match name {
        [] => false,
        [first, rest @ ..] => is_word_start(*first) && are_word_bytes(rest),
    }
}

/// The words of the grammar, and the wildcard.
fn is_reserved(name: &[u8]) -> bool
    ensures { result ≡ list_any (bytes_eq name.now) reserved_words }
{
    name == b"source".as_slice()
        || name == b"typedef".as_slice()
        || name == b"handle".as_slice()
        || name == b"error".as_slice()
        || name == b"atomic".as_slice()
        || name == b"session".as_slice()
        || name == b"_".as_slice()
}

pub fn is_identifier(name: &[u8]) -> bool
    ensures { IsTrue result ↔ IsIdentifier name.now }
{
    is_word(name) && !is_reserved(name)
}
