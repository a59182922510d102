//! What the nodes answer.

ghost use Rattle.std.specs.Prelude.{◌≡◌, ◌≤◌, ◌∷◌, [], length, IfOk, IsTrue};
ghost use Rattle.std.specs.FinMap as map;
ghost use Rattle.flux_values.specs.declared.texts.TheConstants.{TEXT_LIMIT};
ghost use Rattle.flux_values.specs.declared.values.Value.TheVariants.{Bool, Text};
ghost use Rattle.flux_library.specs.Answers as answers;
ghost use Rattle.nodes_cache.specs.Calls as calls;
ghost use Rattle.nodes_cache.specs.Entries as entries;

use crate::changes::{put_number, stored, use_more};
use crate::entries::{NAME_LIMIT, body_of, has_entry, one_more, users_of, uses_of};
use crate::nodes::Node;
use flux_library::Docs;
use flux_library::answers::{copies, emits, fails, good, text_in, word};
use flux_values::{Answer, Bytes, CallResult, Cell, List, Memory, TEXT_LIMIT, TextBytes, Value};
use std::alloc::Global;

impl Node {
    /// The answer on documents, values of the node's kinds and its cells.
    pub fn answer(
        self,
        alloc: Global,
        docs: &Docs,
        args: &[Value],
        cells: &[Cell],
    ) -> Result<Answer, Memory>
        ensures { IfOk result (λ answer. let from = docs.now in
            answer ≡ calls.answer_of from.named self args.now cells.now) }
    {
        match self {
            Node::Listen => good(alloc, List::new(alloc)),
            Node::ReadName => read_name(alloc, text_in(args)),
            Node::CheckCache => check(alloc, cells, name_in(args)),
            Node::ReadInFromDisk => read_document(alloc, name_in(args), docs),
            Node::StoreInCache => store(alloc, cells, args),
            Node::Write => write(alloc, name_in(args), body_in(args)),
            Node::Complete => complete(alloc, cells, name_in(args)),
            Node::FourOhFour => emits(alloc, Bytes::copy(alloc, b"not found\n")?),
        }
    }
}

// What is given

fn name_in(args: &[Value]) -> &[u8]
    ensures same { result.now ≡ calls.the_name args.now }
    ensures limit { length result.now ≤ TEXT_LIMIT }
{
    match args {
        [Value::Text(name), ..] => name.as_bytes(),
        _ => b"",
    }
}

fn body_in(args: &[Value]) -> &[u8]
    ensures same { result.now ≡ calls.the_body args.now }
    ensures limit { length result.now ≤ TEXT_LIMIT }
{
    match args {
        [_, Value::Text(body), ..] => body.as_bytes(),
        _ => b"",
    }
}

/// A text value of bytes that are short enough.
fn text(alloc: Global, bytes: &[u8]) -> Result<Value, Memory>
    requires { length bytes.now ≤ TEXT_LIMIT }
    ensures { IfOk result (λ value. value ≡ Text bytes.now) }
{
    Ok(Value::Text(word(alloc, bytes)?))
}

/// A name, its body, and whether that was in the cache.
fn entry(alloc: Global, name: &[u8], body: TextBytes, hit: bool) -> Result<List<Value>, Memory>
    requires { length name.now ≤ TEXT_LIMIT }
    ensures { IfOk result (λ values. values ≡ Text name.now ∷ Text body ∷ Bool hit ∷ []) }
{
    let mut values = List::new(alloc);
    values.add(text(alloc, name)?)?;
    values.add(Value::Text(body))?;
    values.add(Value::Bool(hit))?;
    Ok(values)
}

// Nodes

fn read_name(alloc: Global, name: &[u8]) -> Result<Answer, Memory>
    ensures { IfOk result (λ answer. answer ≡ calls.read_name_call name.now) }
{
    if name.is_empty() || name.len() > NAME_LIMIT {
        return fails(alloc, 2);
    }
    let mut values = List::new(alloc);
    values.add(text(alloc, name)?)?;
    good(alloc, values)
}

fn check(alloc: Global, cells: &[Cell], name: &[u8]) -> Result<Answer, Memory>
    requires { length name.now ≤ TEXT_LIMIT }
    ensures { IfOk result (λ answer. answer ≡
        calls.on_cell (λ cell. calls.check_call cell name.now) cells.now) }
{
    match cells {
        [cell] if has_entry(alloc, cell, name)? => hit(alloc, cell, name),
        [_] => good(alloc, entry(alloc, name, word(alloc, b"")?, false)?),
        _ => good(alloc, List::new(alloc)),
    }
}

/// What `CheckCache` answers where there is an entry.
fn hit(alloc: Global, cell: &Cell, name: &[u8]) -> Result<Answer, Memory>
    requires { IsTrue (entries.has_entry cell.now name.now) }
    ensures { IfOk result (λ answer. answer ≡ calls.check_call cell.now name.now) }
{
    let body = body_of(alloc, cell, name)?;
    let mut answer = good(alloc, entry(alloc, name, body, true)?)?;
    let uses = one_more(uses_of(alloc, cell, name)?);
    answer.puts.add(put_number(alloc, b"n:", name, uses)?)?;
    use_more(alloc, &mut answer.puts, cell, name)?;
    Ok(answer)
}

fn read_document(alloc: Global, name: &[u8], docs: &Docs) -> Result<Answer, Memory>
    requires { length name.now ≤ TEXT_LIMIT }
    ensures { IfOk result (λ answer. let from = docs.now in
        answer ≡ calls.read_document name.now (map.get from.named name.now)) }
{
    match docs.get(name) {
        Some(body) if body.len() <= TEXT_LIMIT => {
            good(alloc, entry(alloc, name, word(alloc, body)?, false)?)
        }
        Some(_) => fails(alloc, 5),
        None => fails(alloc, 4),
    }
}

fn store(alloc: Global, cells: &[Cell], args: &[Value]) -> Result<Answer, Memory>
    ensures { IfOk result (λ answer. answer ≡ calls.on_cell (λ cell. calls.puts args.now
        (calls.stored cell (calls.the_name args.now) (calls.the_body args.now))) cells.now) }
{
    match cells {
        [cell] => Ok(Answer {
            result: CallResult::Good(copies(alloc, args)?),
            puts: stored(alloc, cell, name_in(args), body_in(args))?,
            emits: Bytes::new(alloc),
        }),
        _ => good(alloc, List::new(alloc)),
    }
}

fn write(alloc: Global, name: &[u8], body: &[u8]) -> Result<Answer, Memory>
    requires { length name.now ≤ TEXT_LIMIT }
    ensures { IfOk result (λ answer. answer ≡ calls.write_call name.now body.now) }
{
    let mut values = List::new(alloc);
    values.add(text(alloc, name)?)?;
    Ok(Answer {
        result: CallResult::Good(values),
        puts: List::new(alloc),
        emits: Bytes::copy(alloc, body)?,
    })
}

fn complete(alloc: Global, cells: &[Cell], name: &[u8]) -> Result<Answer, Memory>
    ensures { IfOk result (λ answer. answer ≡
        calls.on_cell (λ cell. calls.complete_call cell name.now) cells.now) }
{
    let mut answer = good(alloc, List::new(alloc))?;
    if let [cell] = cells {
        if has_entry(alloc, cell, name)? {
            let users = users_of(alloc, cell, name)?;
            if users > 0 {
                answer.puts.add(put_number(alloc, b"u:", name, users - 1)?)?;
            }
        }
    }
    Ok(answer)
}
