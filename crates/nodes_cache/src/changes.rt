//! What nodes put on the cell `cache`.

ghost use Rattle.std.specs.Prelude.{◌≡◌, ◌≤◌, ◌+◌, ◌++◌, length, OnOk, IfOk, codes};
ghost use Rattle.flux_values.specs.declared.texts.TheConstants.{TEXT_LIMIT};
ghost use Rattle.flux_values.specs.declared.values.Value.TheVariants.{Int};
ghost use Rattle.nodes_cache.specs.Calls as calls;

use crate::entries::{
    ENTRY_LIMIT, NAME_LIMIT, entry_names, has_entry, leaving, one_more, users_of,
};
use flux_library::answers::word;
use flux_values::{Cell, List, Memory, Put, TextBytes, Value};
use std::alloc::Global;

/// A change under a name of the cell: a mark, and an entry's name after it.
fn change(alloc: Global, mark: &[u8], name: &[u8], value: Option<Value>) -> Result<Put, Memory>
    requires { length mark.now + length name.now ≤ TEXT_LIMIT }
    ensures { IfOk result (λ put. put ≡
        record { cell = codes "cache"; name = mark.now ++ name.now; value = value }) }
{
    let mut key = Vec::from_slice(alloc, mark)?;
    key.extend_from_slice(name)?;
    Ok(Put {
        cell: word(alloc, b"cache")?,
        name: TextBytes::from_vec(key),
        value,
    })
}

/// A number under a mark and a name.
pub fn put_number(alloc: Global, mark: &[u8], name: &[u8], number: i64) -> Result<Put, Memory>
    requires { length mark.now + length name.now ≤ TEXT_LIMIT }
    ensures { IfOk result (λ put. put ≡ calls.put (mark.now ++ name.now) (Int number)) }
{
    change(alloc, mark, name, Some(Value::Int(number)))
}

/// One user more.
pub fn use_more(alloc: Global, puts: &mut List<Put>, cell: &Cell, name: &[u8]) -> Result<(), Memory>
    requires { length name.now ≤ NAME_LIMIT }
    ensures { OnOk result (puts.new ≡ puts.old ++ calls.used_more cell.now name.now) }
{
    let users = one_more(users_of(alloc, cell, name)?);
    puts.add(put_number(alloc, b"u:", name, users)?)
}

/// A new entry.
fn enter(alloc: Global, puts: &mut List<Put>, name: &[u8], body: &[u8]) -> Result<(), Memory>
    requires name { length name.now ≤ NAME_LIMIT }
    requires body { length body.now ≤ TEXT_LIMIT }
    ensures { OnOk result (puts.new ≡ puts.old ++ calls.entered name.now body.now) }
{
    let body = Value::Text(word(alloc, body)?);
    puts.add(change(alloc, b"b:", name, Some(body))?)?;
    puts.add(put_number(alloc, b"n:", name, 1)?)?;
    puts.add(put_number(alloc, b"u:", name, 1)?)
}

/// An entry that goes.
fn remove(alloc: Global, puts: &mut List<Put>, name: &[u8]) -> Result<(), Memory>
    requires { length name.now ≤ NAME_LIMIT }
    ensures { OnOk result (puts.new ≡ puts.old ++ calls.removed name.now) }
{
    puts.add(change(alloc, b"b:", name, None)?)?;
    puts.add(change(alloc, b"n:", name, None)?)?;
    puts.add(change(alloc, b"u:", name, None)?)
}

/// What `StoreInCache` puts.
pub fn stored(alloc: Global, cell: &Cell, name: &[u8], body: &[u8]) -> Result<List<Put>, Memory>
    requires { length body.now ≤ TEXT_LIMIT }
    ensures { IfOk result (λ puts. puts ≡ calls.stored cell.now name.now body.now) }
{
    let mut puts = List::new(alloc);
    if name.len() > NAME_LIMIT {
        return Ok(puts);
    }
    if has_entry(alloc, cell, name)? {
        use_more(alloc, &mut puts, cell, name)?;
        return Ok(puts);
    }
    let names = entry_names(alloc, cell)?;
    if names.len() < ENTRY_LIMIT {
        enter(alloc, &mut puts, name, body)?;
        return Ok(puts);
    }
    if let Some(old) = leaving(alloc, cell, names.as_slice())? {
        remove(alloc, &mut puts, old)?;
        enter(alloc, &mut puts, name, body)?;
    }
    Ok(puts)
}
