//! The request at the front of a text.

ghost use Rattle.std.specs.Prelude.{◌≡◌, All, IfSome, IfNone, length};
ghost use Rattle.std.specs.List.{count_by};
ghost use Rattle.httparse.specs.Spans.{IsHeaderWithin, span_bytes};
ghost use Rattle.nodes_web.specs.Requests.{is_host, may_serve, path_of, AreAskedIn, AsksNothing};

use httparse::Status;
use httparse::spans::{EMPTY_HEADER_SPAN, HeaderSpan, parse_request};
use memchr::memchr;

/// The most fields that a request's head may have.
pub const FIELD_LIMIT: usize = 64;

/// What a request asks for.
#[derive(Clone, Copy, PartialEq, Eq)]
pub struct Request<'a> {
    pub method: &'a [u8],
    /// The target up to its first `?`.
    pub path: &'a [u8],
}

/// The request whose head begins the text, if it is one to be answered (RFC 9112, section 3): its
/// target is a path, and it has at most one field `Host`, and in HTTP/1.1 just one. A head has at most
/// 64 fields; what follows it doesn't matter.
pub fn read_request(text: &[u8]) -> Option<Request<'_>>
    ensures asked { IfSome result (λ asked. AreAskedIn text.now asked.method.now asked.path.now) }
    ensures none { IfNone result (AsksNothing text.now) }
{
    let mut fields = [EMPTY_HEADER_SPAN; FIELD_LIMIT];
    let Ok(Status::Complete(head)) = parse_request(text, &mut fields) else {
        return None;
    };
    let target = head.path.of(text);
    let hosts = count_hosts(text, &fields[..head.headers]);
    if may_serve(target, head.version, hosts) {
        Some(Request {
            method: head.method.of(text),
            path: path_of(target),
        })
    } else {
        None
    }
}

/// Whether a request with this target, in this minor version, with so many fields `Host` is one to
/// be answered.
fn may_serve(target: &[u8], minor: u8, hosts: usize) -> bool
    ensures { result ≡ may_serve target.now minor hosts }
{
    target.starts_with(b"/") && hosts <= 1 && (minor != 1 || hosts >= 1)
}

/// Whether a field's name is `Host`, without regard to case (RFC 9110, section 5.1).
fn is_host(name: &[u8]) -> bool
    ensures { result ≡ is_host name.now }
{
    name.eq_ignore_ascii_case(b"Host")
}

/// How many of the fields are named `Host`.
fn count_hosts(text: &[u8], fields: &[HeaderSpan]) -> usize
    requires { All (IsHeaderWithin (length text.now)) fields.now }
    ensures { result ≡ count_by (λ f. is_host (span_bytes text.now f.name)) fields.now }
{
    let mut count = 0;
    for field in fields {
        if is_host(field.name.of(text)) {
            count += 1;
        }
    }
    count
}

/// The target up to its first `?`.
fn path_of(target: &[u8]) -> &[u8]
    ensures { result.now ≡ path_of target.now }
{
    match memchr(b'?', target) {
        Some(at) => &target[..at],
        None => target,
    }
}
