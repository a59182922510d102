//! The bytes of replies.

ghost use Rattle.std.specs.Prelude.{◌≡◌, ◌++◌, IfOk, OnOk};
ghost use Rattle.nodes_web.specs.Replies.{allowed, head_of, line, reply, error_reply};

use flux_values::{Bytes, Memory};
use http::StatusCode;
use std::alloc::Global;

/// A reply with a body of a type: all of it, or its head alone, with the body's length.
pub(crate) fn reply(
    alloc: Global,
    status: StatusCode,
    kind: &[u8],
    body: &[u8],
    whole: bool,
) -> Result<Bytes, Memory>
    ensures { IfOk result (λ bytes. bytes ≡ reply status kind.now body.now whole) }
{
    let mut bytes = Bytes::new(alloc);
    append_head(alloc, &mut bytes, status, kind, body.len())?;
    if whole {
        bytes.append(body)?;
    }
    Ok(bytes)
}

/// A reply whose body is its code and phrase.
pub(crate) fn error_reply(alloc: Global, status: StatusCode, whole: bool) -> Result<Bytes, Memory>
    ensures { IfOk result (λ bytes. bytes ≡ error_reply status whole) }
{
    let mut body = Bytes::copy(alloc, status.to_string(alloc)?.as_bytes())?;
    body.append(b"\n")?;
    reply(alloc, status, b"text/plain", body.as_bytes(), whole)
}

/// Adds a head at the end. After an `Err` a part of it may be there.
fn append_head(
    alloc: Global,
    out: &mut Bytes,
    status: StatusCode,
    kind: &[u8],
    size: usize,
) -> Result<(), Memory>
    ensures { OnOk result (out.new ≡ out.old ++ head_of status kind.now size) }
{
    append_line(out, b"HTTP/1.1 ", status.to_string(alloc)?.as_bytes())?;
    append_allowed(out, status)?;
    append_line(out, b"Content-Type: ", kind)?;
    append_line(out, b"Content-Length: ", size.to_string(alloc)?.as_bytes())?;
    append_line(out, b"Connection: ", b"close")?;
    append_line(out, b"", b"")
}

/// Adds the methods that are allowed, where the status is 405.
fn append_allowed(out: &mut Bytes, status: StatusCode) -> Result<(), Memory>
    ensures { OnOk result (out.new ≡ out.old ++ allowed status) }
{
    if status.as_u16() == 405 {
        append_line(out, b"Allow: ", b"GET, HEAD")
    } else {
        Ok(())
    }
}

/// Adds a line of a head, in two parts.
#[tactic(auto, unfolding(crate::specs::Replies::line))]
fn append_line(out: &mut Bytes, name: &[u8], value: &[u8]) -> Result<(), Memory>
    ensures { OnOk result (out.new ≡ out.old ++ line (name.now ++ value.now)) }
{
    out.append(name)?;
    out.append(value)?;
    out.append(b"\r\n")
}
