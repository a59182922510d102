//! The library `Web`: nodes that read requests and send documents, in a narrow profile of HTTP/1.1
//! (RFC 9110 and RFC 9112).
//!
//! Its meaning has one definition for each node, predicate and session function, in words of its own,
//! and each call gives what they say. It keeps the laws of libraries. Requests are those of the
//! grammar of `httparse`, and phrases of status codes those of `http`.
#![tactic(auto)]

mod calls;
mod names;
mod nodes;
mod predicates;
mod replies;
mod requests;
mod web;

pub use nodes::Node;
pub use predicates::{asked, holds};
pub use requests::{FIELD_LIMIT, Request, read_request};
pub use web::Web;
