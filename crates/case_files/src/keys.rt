//! The words with which lines of a case file begin.

use crate::entries::Stream;
use trial_ends::Trouble;

/// What a line is about.
#[derive(Clone, Copy)]
pub enum Key {
    Shared,
    Case,
    Text,
    Words,
    File,
    Folder,
    Document,
    Documents,
    Fail,
    Room,
    Piece,
    /// What a stream has to gain.
    Gains(Stream),
    Batch,
    Link,
    Links,
    Status,
    Calls,
    Hold,
    Asked,
    Opened,
}

const KEYS: &[(&str, Key)] = &[
    ("shared", Key::Shared),
    ("case", Key::Case),
    ("text", Key::Text),
    ("words", Key::Words),
    ("file", Key::File),
    ("folder", Key::Folder),
    ("document", Key::Document),
    ("documents", Key::Documents),
    ("fail", Key::Fail),
    ("room", Key::Room),
    ("piece", Key::Piece),
    ("out", Key::Gains(Stream::Out)),
    ("err", Key::Gains(Stream::Err)),
    ("batch", Key::Batch),
    ("link", Key::Link),
    ("links", Key::Links),
    ("gets", Key::Gains(Stream::Link)),
    ("status", Key::Status),
    ("calls", Key::Calls),
    ("hold", Key::Hold),
    ("asked", Key::Asked),
    ("opened", Key::Opened),
];

/// What a line with this first word is about.
pub fn key_of(word: &str) -> Result<Key, Trouble> {
    for (name, key) in KEYS {
        if *name == word {
            return Ok(*key);
        }
    }
    Err(Trouble::Words)
}
