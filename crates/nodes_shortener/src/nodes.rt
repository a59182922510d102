//! The nodes: their signatures, and what they answer.

ghost use Rattle.std.specs.Prelude.{◌≡◌, ◌≤◌, length, drop, IfOk};
ghost use Rattle.flux_values.specs.declared.texts.TheConstants.{TEXT_LIMIT};
ghost use Rattle.nodes_shortener.specs.Nodes.{sig_named, answer_named, shorten_call, expand_call, redirect_call, created_call};

use crate::arguments::{first_number, first_text, second_text};
use crate::cells::{decimal, number_under, put, text_under};
use flux_library::answers::{emits, fails, good, word};
use flux_library::signatures::{cell, plain};
use flux_spelling::append_value;
use flux_values::{Answer, Bytes, Cell, Kind, List, Memory, Mode, Sig, Value};
use std::alloc::Global;

/// The signature of the node that has this name.
pub fn sig(alloc: Global, name: &[u8]) -> Result<Option<Sig>, Memory>
    ensures { IfOk result (λ sig. sig ≡ sig_named name.now) }
{
    if name == b"Shorten".as_slice() {
        let (ins, outs) = ([Kind::Text, Kind::Text], [Kind::Int]);
        let cells = cell(alloc, b"links", Mode::Writer)?;
        return Ok(Some(plain(alloc, &ins, &outs, cells)?));
    }
    if name == b"Expand".as_slice() {
        let (ins, outs) = ([Kind::Text, Kind::Text], [Kind::Text]);
        let cells = cell(alloc, b"links", Mode::Reader)?;
        return Ok(Some(plain(alloc, &ins, &outs, cells)?));
    }
    if name == b"Redirect".as_slice() {
        let ins = [Kind::Text];
        return Ok(Some(plain(alloc, &ins, &[], List::new(alloc))?));
    }
    if name == b"Created".as_slice() {
        let ins = [Kind::Int];
        return Ok(Some(plain(alloc, &ins, &[], List::new(alloc))?));
    }
    Ok(None)
}

/// The answer of the node that has this name, on values of its kinds and on its cells.
pub fn answer(alloc: Global, name: &[u8], args: &[Value], cells: &[Cell]) -> Result<Answer, Memory>
    ensures { IfOk result (λ answer. answer ≡ answer_named name.now args.now cells.now) }
{
    if name == b"Shorten".as_slice() {
        return shorten(alloc, args, cells);
    }
    if name == b"Expand".as_slice() {
        return expand(alloc, args, cells);
    }
    if name == b"Redirect".as_slice() {
        return redirect(alloc, args);
    }
    if name == b"Created".as_slice() {
        return created(alloc, args);
    }
    good(alloc, List::new(alloc))
}

/// Keeps the path, without its first byte, under the next number, and gives the number.
fn shorten(alloc: Global, args: &[Value], cells: &[Cell]) -> Result<Answer, Memory>
    ensures { IfOk result (λ answer. answer ≡ shorten_call args.now cells.now) }
{
    let Some(number) = number_under(cells, b"count").checked_add(1) else {
        return fails(alloc, 1);
    };
    let mut values = List::with_room(alloc, 1)?;
    values.add(Value::Int(number))?;
    let mut answer = good(alloc, values)?;
    let (count, name) = (word(alloc, b"count")?, decimal(alloc, number)?);
    put(alloc, &mut answer, b"links", count, Value::Int(number))?;
    let link = word(alloc, after_slash(second_text(args)))?;
    put(alloc, &mut answer, b"links", name, Value::Text(link))?;
    Ok(answer)
}

/// A path without its first byte.
fn after_slash(path: &[u8]) -> &[u8]
    requires { length path.now ≤ TEXT_LIMIT }
    ensures same { result.now ≡ drop 1 path.now }
    ensures limit { length result.now ≤ TEXT_LIMIT }
{
    let (_, rest) = path.split_at(path.len().min(1));
    rest
}

/// Gives the link under the path without its first byte.
fn expand(alloc: Global, args: &[Value], cells: &[Cell]) -> Result<Answer, Memory>
    ensures { IfOk result (λ answer. answer ≡ expand_call args.now cells.now) }
{
    let Some(link) = text_under(alloc, cells, after_slash(second_text(args)))? else {
        return fails(alloc, 4);
    };
    let mut values = List::with_room(alloc, 1)?;
    values.add(Value::Text(link))?;
    good(alloc, values)
}

/// How a reply without a body ends.
const NO_BODY: &[u8] = b"\r\nContent-Length: 0\r\nConnection: close\r\n\r\n";

/// Emits the reply that sends a client to the link.
fn redirect(alloc: Global, args: &[Value]) -> Result<Answer, Memory>
    ensures { IfOk result (λ answer. answer ≡ redirect_call args.now) }
{
    let mut reply = Bytes::copy(alloc, b"HTTP/1.1 302 Found\r\nLocation: ")?;
    reply.append(first_text(args))?;
    reply.append(NO_BODY)?;
    emits(alloc, reply)
}

/// Emits the reply that names the new link.
fn created(alloc: Global, args: &[Value]) -> Result<Answer, Memory>
    ensures { IfOk result (λ answer. answer ≡ created_call args.now) }
{
    let mut reply = Bytes::copy(alloc, b"HTTP/1.1 201 Created\r\nLocation: /")?;
    append_value(alloc, &mut reply, &Value::Int(first_number(args)))?;
    reply.append(NO_BODY)?;
    emits(alloc, reply)
}
