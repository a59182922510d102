//! The entries of the cell `cache`.

ghost use Rattle.std.specs.Prelude.{◌≡◌, ◌≤◌, ℕ, true, int_le, List, [], ◌∷◌, ◌++◌, map, length, IfOk, IfSome, option_map, option_copied};
ghost use Rattle.flux_values.specs.declared.texts.TheConstants.{TEXT_LIMIT};
ghost use Rattle.nodes_cache.specs.Entries as entries;
ghost use Rattle.nodes_cache.specs.steps.Leaving.{IsFound, IsFirstLeast};

use flux_library::answers::word;
use flux_values::{Bytes, Cell, Memory, TextBytes, Value};
use std::alloc::Global;

/// The greatest length of a name that may have an entry, in bytes.
pub const NAME_LIMIT: usize = 1024;

/// How many entries there may be before one has to go for a new one.
pub const ENTRY_LIMIT: usize = 8;

/// A name of the cell: a mark, and an entry's name after it.
pub fn key(alloc: Global, mark: &[u8], name: &[u8]) -> Result<Bytes, Memory>
    ensures { IfOk result (λ key. key ≡ mark.now ++ name.now) }
{
    let mut key = Bytes::copy(alloc, mark)?;
    key.append(name)?;
    Ok(key)
}

fn number_or_zero(value: Option<&Value>) -> i64
    ensures { result ≡ entries.number_or_zero (option_copied value.entry) }
{
    match value {
        Some(Value::Int(number)) => *number,
        _ => 0,
    }
}

pub fn has_entry(alloc: Global, cell: &Cell, name: &[u8]) -> Result<bool, Memory>
    ensures { IfOk result (λ has. has ≡ entries.has_entry cell.now name.now) }
{
    if name.len() > NAME_LIMIT {
        return Ok(false);
    }
    let key = key(alloc, b"b:", name)?;
    Ok(cell.get(key.as_bytes()).is_some())
}

/// Bytes that are short enough as a text, which fits.
fn held_text(alloc: Global, bytes: &[u8]) -> Result<TextBytes, Memory>
    requires { length bytes.now ≤ TEXT_LIMIT }
    ensures same { IfOk result (λ text. text ≡ bytes.now) }
    ensures fits { entries.fits bytes.now ≡ true }
{
    word(alloc, bytes)
}

/// An entry's body.
pub fn body_of(alloc: Global, cell: &Cell, name: &[u8]) -> Result<TextBytes, Memory>
    ensures { IfOk result (λ body. body ≡ entries.body_of cell.now name.now) }
{
    let key = key(alloc, b"b:", name)?;
    match cell.get(key.as_bytes()) {
        Some(Value::Text(text)) => held_text(alloc, text.as_bytes()),
        _ => word(alloc, b""),
    }
}

pub fn uses_of(alloc: Global, cell: &Cell, name: &[u8]) -> Result<i64, Memory>
    ensures { IfOk result (λ uses. uses ≡ entries.uses_of cell.now name.now) }
{
    let key = key(alloc, b"n:", name)?;
    Ok(number_or_zero(cell.get(key.as_bytes())))
}

pub fn users_of(alloc: Global, cell: &Cell, name: &[u8]) -> Result<i64, Memory>
    ensures { IfOk result (λ users. users ≡ entries.users_of cell.now name.now) }
{
    let key = key(alloc, b"u:", name)?;
    Ok(number_or_zero(cell.get(key.as_bytes())))
}

/// One more, up to the greatest number of 64 bits.
pub fn one_more(number: i64) -> i64
    ensures { result ≡ entries.one_more number }
{
    number.saturating_add(1)
}

/// The entry that has its body under a name of the cell.
fn entry_name(key: &[u8]) -> Option<&[u8]>
    ensures { option_map (λ name. name.now) result ≡ entries.entry_name key.now }
{
    match key.strip_prefix(b"b:") {
        Some(name) if name.len() <= NAME_LIMIT => Some(name),
        _ => None,
    }
}

/// The names that have an entry, in bytewise order.
pub fn entry_names<'a>(alloc: Global, cell: &'a Cell) -> Result<Vec<&'a [u8]>, Memory>
    ensures { IfOk result (λ names. map (λ name. name.now) names.items ≡ entries.entries cell.now) }
{
    let mut names = Vec::new(alloc);
    for place in 0..usize::MAX {
        let Some(key) = cell.name_at(place) else {
            return Ok(names);
        };
        if let Some(name) = entry_name(key.as_bytes()) {
            names.push(name)?;
        }
    }
    // No memory holds as many names.
    Err(Memory)
}

/// Whether an entry has no users.
fn is_free(alloc: Global, cell: &Cell, name: &[u8]) -> Result<bool, Memory>
    ensures { IfOk result (λ free. free ≡ entries.is_zero (entries.users_of cell.now name.now)) }
{
    Ok(users_of(alloc, cell, name)? == 0)
}

/// Whether an entry has no more uses than another.
fn is_no_more_used(alloc: Global, cell: &Cell, name: &[u8], other: &[u8]) -> Result<bool, Memory>
    ensures { IfOk result (λ less. less ≡
        int_le (entries.uses_of cell.now name.now) (entries.uses_of cell.now other.now)) }
{
    Ok(uses_of(alloc, cell, name)? <= uses_of(alloc, cell, other)?)
}

/// The first of some names, or this one where it has fewer uses, or there are none.
fn less_used<'a>(
    alloc: Global,
    cell: &Cell,
    least: Option<&'a [u8]>,
    name: &'a [u8],
) -> Result<&'a [u8], Memory>
    ensures { (names : List (List ℕ)) → IsFound cell.now names least.entry
        → IfOk result (λ new. IsFirstLeast cell.now (names ++ name.now ∷ []) new.now) }
{
    match least {
        Some(first) => {
            if is_no_more_used(alloc, cell, first, name)? {
                Ok(first)
            } else {
                Ok(name)
            }
        }
        None => Ok(name),
    }
}

/// Of the entries without users the one with the least uses, and of those the first in bytewise order.
pub fn leaving<'a>(
    alloc: Global,
    cell: &Cell,
    names: &[&'a [u8]],
) -> Result<Option<&'a [u8]>, Memory>
    requires { map (λ name. name.now) names.now ≡ entries.entries cell.now }
    ensures same { IfOk result (λ old. option_map (λ name. name.now) old ≡ entries.leaving cell.now) }
    ensures short { IfOk result (λ old. IfSome old (λ name. length name.now ≤ NAME_LIMIT)) }
{
    let mut least = None;
    for name in names {
        if is_free(alloc, cell, name)? {
            least = Some(less_used(alloc, cell, least, name)?);
        }
    }
    Ok(least)
}
