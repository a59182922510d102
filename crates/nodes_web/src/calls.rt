//! What the nodes answer.

ghost use Rattle.std.specs.Prelude.{◌≡◌, ◌≤◌, IfOk, length};
ghost use Rattle.flux_values.specs.declared.texts.TheConstants.{TEXT_LIMIT};
ghost use Rattle.httparse.specs.Pieces.{is_newline};
ghost use Rattle.nodes_web.specs.Calls as calls;

use crate::names::{name_of, type_of};
use crate::nodes::Node;
use crate::replies::{error_reply, reply};
use crate::requests::read_request;
use flux_library::Docs;
use flux_library::answers::{emits, fails, good, text_in, word};
use flux_values::{Answer, List, Memory, TEXT_LIMIT, Value};
use http::StatusCode;
use std::alloc::Global;

impl Node {
    /// The answer on values of the node's kinds, with the documents.
    pub fn answer(self, alloc: Global, docs: &Docs, args: &[Value]) -> Result<Answer, Memory>
        ensures { IfOk result (λ answer. answer ≡ calls.answer_of docs.now self args.now) }
    {
        match self {
            Node::Accept => good(alloc, List::new(alloc)),
            Node::ReadRequest => read(alloc, text_in(args)),
            Node::LookUp => look_up(alloc, docs, first_text(args), text_in(args)),
            Node::SendDoc => send(alloc, docs, text_in(args), true),
            Node::SendHead => send(alloc, docs, text_in(args), false),
            Node::NotFound => refuse(alloc, StatusCode::NOT_FOUND, gets_body(first_text(args))),
            Node::NotAllowed => {
                refuse(
                    alloc,
                    StatusCode::METHOD_NOT_ALLOWED,
                    gets_body(first_text(args)),
                )
            }
            Node::BadRequest => {
                refuse(
                    alloc,
                    StatusCode::BAD_REQUEST,
                    begins_otherwise(text_in(args)),
                )
            }
        }
    }
}

/// The first text of two; of no meaning for other values.
fn first_text(args: &[Value]) -> &[u8]
    ensures same { result.now ≡ calls.first_text args.now }
    ensures limit { length result.now ≤ TEXT_LIMIT }
{
    match args {
        [Value::Text(text), _] => text.as_bytes(),
        _ => b"",
    }
}

/// Ok with two texts.
fn two(alloc: Global, first: &[u8], second: &[u8]) -> Result<Answer, Memory>
    requires first { length first.now ≤ TEXT_LIMIT }
    requires second { length second.now ≤ TEXT_LIMIT }
    ensures { IfOk result (λ answer. answer ≡ calls.two first.now second.now) }
{
    let mut values = List::new(alloc);
    values.add(Value::Text(word(alloc, first)?))?;
    values.add(Value::Text(word(alloc, second)?))?;
    good(alloc, values)
}

// Nodes

fn read(alloc: Global, text: &[u8]) -> Result<Answer, Memory>
    requires { length text.now ≤ TEXT_LIMIT }
    ensures { IfOk result (λ answer. answer ≡ calls.read_call text.now) }
{
    match read_request(text) {
        Some(request) => two(alloc, request.method, request.path),
        None => fails(alloc, 1),
    }
}

fn look_up(alloc: Global, docs: &Docs, method: &[u8], path: &[u8]) -> Result<Answer, Memory>
    requires { length method.now ≤ TEXT_LIMIT }
    ensures { IfOk result (λ answer. answer ≡ calls.look_up_call docs.now method.now path.now) }
{
    if !path.starts_with(b"/") {
        return fails(alloc, 4);
    }
    let name = name_of(alloc, path)?;
    if name.len() > TEXT_LIMIT {
        fails(alloc, 5)
    } else if docs.get(&name).is_some() {
        two(alloc, method, &name)
    } else {
        fails(alloc, 4)
    }
}

fn send(alloc: Global, docs: &Docs, name: &[u8], whole: bool) -> Result<Answer, Memory>
    ensures { IfOk result (λ answer. answer ≡ calls.send_call docs.now name.now whole) }
{
    match docs.get(name) {
        Some(body) => emits(
            alloc,
            reply(alloc, StatusCode::OK, type_of(name), body, whole)?,
        ),
        None => fails(alloc, 4),
    }
}

fn refuse(alloc: Global, status: StatusCode, whole: bool) -> Result<Answer, Memory>
    ensures { IfOk result (λ answer. answer ≡ calls.refused status whole) }
{
    emits(alloc, error_reply(alloc, status, whole)?)
}

/// A method other than `HEAD` gets a body.
fn gets_body(method: &[u8]) -> bool
    ensures { result ≡ calls.gets_body method.now }
{
    method != b"HEAD".as_slice()
}

/// A text that, after any CR and LF at its start, doesn't begin with `HEAD` and a space.
fn begins_otherwise(text: &[u8]) -> bool
    ensures { result ≡ calls.begins_otherwise text.now }
{
    !without_newlines(text).starts_with(b"HEAD ")
}

/// The text without the CR and LF at its start.
fn without_newlines(text: &[u8]) -> &[u8]
    ensures { result.now ≡ calls.without_newlines text.now }
{
    let mut at = 0;
    while at < text.len() && is_newline(text[at]) {
        at += 1;
    }
    &text[at..]
}

fn is_newline(byte: u8) -> bool
    ensures { result ≡ is_newline byte }
{
    byte == b'\r' || byte == b'\n'
}
