//! The names of documents, and their types.

ghost use Rattle.std.specs.Prelude.{◌≡◌, Some, None, IfOk, option_map};
ghost use Rattle.nodes_web.specs.Names.{name_of, type_of, type_of_ending};

use flux_values::Memory;
use memchr::memrchr;
use std::alloc::Global;

/// The name that a path asks for: what follows its first byte, and for a path that ends in `/` its
/// `index.html`.
pub(crate) fn name_of(alloc: Global, path: &[u8]) -> Result<Vec<u8>, Memory>
    ensures { IfOk result (λ name. name.items ≡ name_of path.now) }
{
    let (_, rest) = path.split_at(path.len().min(1));
    let mut name = Vec::from_slice(alloc, rest)?;
    if path.ends_with(b"/") {
        name.extend_from_slice(b"index.html")?;
    }
    Ok(name)
}

/// The type of a document, by what follows the last `.` of its name (RFC 9110, section 8.3.1).
pub(crate) fn type_of(name: &[u8]) -> &'static [u8]
    ensures { result.now ≡ type_of name.now }
{
    match memrchr(b'.', name) {
        Some(at) => {
            let (_, ending) = name.split_at(at + 1);
            type_of_ending(ending)
        }
        None => b"application/octet-stream",
    }
}

fn type_of_ending(ending: &[u8]) -> &'static [u8]
    ensures { result.now ≡ type_of_ending (Some ending.now) }
{
    if ending == b"html".as_slice() || ending == b"htm".as_slice() {
        b"text/html"
    } else if ending == b"txt".as_slice() {
        b"text/plain"
    } else if ending == b"css".as_slice() {
        b"text/css"
    } else if ending == b"js".as_slice() {
        b"text/javascript"
    } else if ending == b"json".as_slice() {
        b"application/json"
    } else if ending == b"svg".as_slice() {
        b"image/svg+xml"
    } else if ending == b"png".as_slice() {
        b"image/png"
    } else if ending == b"jpg".as_slice() || ending == b"jpeg".as_slice() {
        b"image/jpeg"
    } else if ending == b"gif".as_slice() {
        b"image/gif"
    } else {
        b"application/octet-stream"
    }
}
