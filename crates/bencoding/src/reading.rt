//! Values read from the front of bytes.

ghost use Rattle.std.specs.Prelude.{◌≡◌, ◌≤◌, ◌<◌, ◌↔◌, ℕ, length, slice_index, option_map, Some, IsTrue, true, false};
ghost use Rattle.flux_values.specs.Spellings.{with_sign};
ghost use Rattle.bencoding.specs.Trees.{Tree};
ghost use Rattle.bencoding.specs.Reading.{BeginsWith, IsBadBen, HasCause, IsRead, IsRefused};
ghost use Rattle.bencoding.specs.steps.Keys.{AreKeyBytes};
ghost use Rattle.bencoding.specs.steps.Values.{IsFirst, IsHead, IsDigitHead, IsMarked, IsValueRead, IsFieldRead, limit_of, low_of, mark};

use crate::digits::read_ended;
use crate::strings::read_string;
use crate::values::{Ben, BenFault, DEPTH_LIMIT, Field};
use flux_values::Bytes;
use std::alloc::Global;

/// What a first byte begins.
#[derive(Clone, Copy)]
enum First {
    Number,
    String,
    Items,
    Dict,
    Nothing,
}

/// The value whose spelling begins the bytes, and that spelling's length.
///
/// `BadBen` comes where no value's spelling begins the bytes, at the first place at which none goes on.
pub fn read_ben(alloc: Global, bytes: &[u8]) -> Result<(Ben, usize), BenFault>
    // Each answer has its cause.
    ensures cause { HasCause result bytes.now }
    // A spelling is read with its length, whatever follows it, but for want of memory.
    ensures value { (t : Tree) (n : ℕ) → BeginsWith DEPTH_LIMIT bytes.now t n → IsRead t n result }
    // Other bytes are refused at their place, but for want of memory.
    ensures bad { (at : ℕ) → IsBadBen DEPTH_LIMIT bytes.now at → IsRefused at result }
{
    read_value(alloc, bytes, DEPTH_LIMIT)
}

fn first_of(bytes: &[u8], depth: u8) -> First
    ensures { IsFirst result bytes.now depth }
{
    if bytes.is_empty() {
        return First::Nothing;
    }
    let byte = bytes[0];
    if byte == b'i' {
        First::Number
    } else if byte >= b'0' && byte <= b'9' {
        First::String
    } else if byte == b'l' && depth > 0 {
        First::Items
    } else if byte == b'd' && depth > 0 {
        First::Dict
    } else {
        First::Nothing
    }
}

/// A value with at most so many lists and dictionaries in one another.
#[cycle(reading)]
fn read_value(alloc: Global, bytes: &[u8], depth: u8) -> Result<(Ben, usize), BenFault>
    ensures { IsValueRead depth bytes.now result }
{
    match first_of(bytes, depth) {
        First::Number => read_int(bytes, depth),
        First::String => read_text(alloc, bytes, depth),
        First::Items => read_items(alloc, bytes, depth),
        First::Dict => read_fields(alloc, bytes, depth),
        First::Nothing => Err(BenFault::BadBen { at: 0 }),
    }
}

fn read_int(bytes: &[u8], depth: u8) -> Result<(Ben, usize), BenFault>
    requires { IsHead bytes.now 105 }
    ensures { IsValueRead depth bytes.now result }
{
    if bytes.len() > 1 && bytes[1] == b'-' {
        read_signed(bytes, true, depth)
    } else {
        read_signed(bytes, false, depth)
    }
}

fn read_signed(bytes: &[u8], negative: bool, depth: u8) -> Result<(Ben, usize), BenFault>
    requires { IsMarked negative bytes.now }
    ensures { IsValueRead depth bytes.now result }
{
    let at = mark_length(negative);
    match read_ended(&bytes[at..], least(negative), greatest(negative), b'e') {
        Ok((magnitude, length)) => {
            let number = signed(negative, magnitude);
            Ok((Ben::Int(number), at + length))
        }
        Err(more) => Err(BenFault::BadBen { at: at + more }),
    }
}

/// The length of `i` and a minus sign, or of `i` alone.
fn mark_length(negative: bool) -> usize
    ensures { result ≡ length (mark negative) }
{
    if negative { 2 } else { 1 }
}

/// The least magnitude of a number with a sign, or without one.
fn least(negative: bool) -> u64
    ensures { result ≡ low_of negative }
{
    if negative { 1 } else { 0 }
}

/// The greatest magnitude of such a number in 64 bits.
fn greatest(negative: bool) -> u64
    ensures { result ≡ limit_of negative }
{
    if negative {
        i64::MAX as u64 + 1
    } else {
        i64::MAX as u64
    }
}

fn signed(negative: bool, magnitude: u64) -> i64
    requires low { low_of negative ≤ magnitude }
    requires high { magnitude ≤ limit_of negative }
    ensures { result ≡ with_sign negative magnitude }
{
    if negative {
        -((magnitude - 1) as i64) - 1
    } else {
        magnitude as i64
    }
}

fn read_text(alloc: Global, bytes: &[u8], depth: u8) -> Result<(Ben, usize), BenFault>
    requires { IsDigitHead bytes.now }
    ensures { IsValueRead depth bytes.now result }
{
    match read_string(bytes, None) {
        Ok((text, length)) => Ok((Ben::Text(Bytes::copy(alloc, text)?), length)),
        Err(at) => Err(BenFault::BadBen { at }),
    }
}

#[cycle(reading)]
fn read_items(alloc: Global, bytes: &[u8], depth: u8) -> Result<(Ben, usize), BenFault>
    requires head { IsHead bytes.now 108 }
    requires depth { 0 < depth }
    ensures { IsValueRead depth bytes.now result }
{
    let mut items = Vec::new(alloc);
    let mut at = 1;
    while at < bytes.len() && bytes[at] != b'e' {
        match read_value(alloc, &bytes[at..], depth - 1) {
            Ok((item, length)) => {
                items.push(item)?;
                at += length;
            }
            Err(BenFault::BadBen { at: more }) => return Err(BenFault::BadBen { at: at + more }),
            Err(BenFault::Memory) => return Err(BenFault::Memory),
        }
    }
    if at == bytes.len() {
        return Err(BenFault::BadBen { at });
    }
    Ok((Ben::Items(items), at + 1))
}

#[cycle(reading)]
fn read_fields(alloc: Global, bytes: &[u8], depth: u8) -> Result<(Ben, usize), BenFault>
    requires head { IsHead bytes.now 100 }
    requires depth { 0 < depth }
    ensures { IsValueRead depth bytes.now result }
{
    let mut fields: Vec<Field<Ben>> = Vec::new(alloc);
    let mut before = None;
    let mut at = 1;
    while at < bytes.len() && bytes[at] != b'e' {
        match read_field(alloc, &bytes[at..], before, depth - 1) {
            Ok((field, key, length)) => {
                fields.push(field)?;
                before = Some(key);
                at += length;
            }
            Err(BenFault::BadBen { at: more }) => return Err(BenFault::BadBen { at: at + more }),
            Err(BenFault::Memory) => return Err(BenFault::Memory),
        }
    }
    if at == bytes.len() {
        return Err(BenFault::BadBen { at });
    }
    Ok((Ben::Dict(fields), at + 1))
}

/// A key above the one before and its value, with that key's bytes and the length of both spellings.
#[cycle(reading)]
fn read_field<'a>(
    alloc: Global,
    bytes: &'a [u8],
    before: Option<&[u8]>,
    depth: u8,
) -> Result<(Field<Ben>, &'a [u8], usize), BenFault>
    requires { AreKeyBytes (option_map (λ key. key.now) before) }
    ensures { IsFieldRead depth (option_map (λ key. key.now) before.entry) bytes.now result }
{
    let (text, at) = match read_string(bytes, before) {
        Ok(read) => read,
        Err(at) => return Err(BenFault::BadBen { at }),
    };
    let key = Bytes::copy(alloc, text)?;
    match read_value(alloc, &bytes[at..], depth) {
        Ok((value, length)) => Ok((Field { key, value }, text, at + length)),
        Err(BenFault::BadBen { at: more }) => Err(BenFault::BadBen { at: at + more }),
        Err(BenFault::Memory) => Err(BenFault::Memory),
    }
}
