//! One line of an items text.

ghost use Rattle.std.specs.Prelude.{◌≡◌, ◌<◌, ℕ, List, length, IfOk, IfSome, IfNone};
ghost use Rattle.flux_items.specs.Rules.{AreRules, GivesKinds};
ghost use Rattle.flux_items.specs.steps.Reading.{IsLineRead, HasName, IsItemRead, IsUnknownRead};

use crate::blanks::{behind, is_passed_over, skip_blanks};
use crate::rules::ItemRules;
use crate::spellings::{ValuesRead, read_values};
use crate::words::{is_identifier, word_length};
use flux_model::{Item, Names, SourceNo};
use flux_values::{Kind, Memory};
use std::alloc::Global;

/// What a line is.
#[derive(Drop)]
pub enum LineRead {
    PassedOver,
    Item(Item),
    BadItem,
    UnknownSource,
    ItemTypes,
}

/// The identifier before a `(`, and what follows it.
fn split_name(line: &[u8]) -> Option<(&[u8], &[u8])>
    ensures found { IfSome result (λ parts. HasName line.now parts.0.now parts.1.now) }
    ensures none { IfNone result ((name behind : List ℕ) → HasName line.now name behind → ⊥) }
{
    let text = skip_blanks(line);
    let (name, rest) = text.split_at(word_length(text));
    let Some(values) = behind(b'(', skip_blanks(rest)) else {
        return None;
    };
    if is_identifier(name) {
        Some((name, values))
    } else {
        None
    }
}

/// The kinds that a source gives.
fn kinds_at(rules: &ItemRules, place: usize) -> &[Kind]
    ensures { let from = rules.now in place < length from.kinds → GivesKinds from place result.now }
{
    match rules.kinds.get(place) {
        Some(kinds) => kinds.as_slice(),
        None => &[],
    }
}

/// The values after a source's name.
fn read_item(
    alloc: Global,
    rules: &ItemRules,
    place: usize,
    text: &[u8],
) -> Result<LineRead, Memory>
    requires rules { AreRules rules.now }
    requires place { let from = rules.now in place < length from.names }
    ensures { IfOk result (IsItemRead rules.now place text.now) }
{
    Ok(match read_values(alloc, kinds_at(rules, place), text)? {
        ValuesRead::Bad => LineRead::BadItem,
        ValuesRead::Other => LineRead::ItemTypes,
        ValuesRead::These(values) => LineRead::Item(Item {
            source: SourceNo(place as u32),
            values,
        }),
    })
}

/// The values after a name that no source has.
fn read_unknown(alloc: Global, text: &[u8]) -> Result<LineRead, Memory>
    ensures { IfOk result (IsUnknownRead text.now) }
{
    match read_values(alloc, &[], text)? {
        ValuesRead::Bad => Ok(LineRead::BadItem),
        ValuesRead::Other | ValuesRead::These(_) => Ok(LineRead::UnknownSource),
    }
}

pub fn read_line(
    alloc: Global,
    rules: &ItemRules,
    names: &Names,
    line: &[u8],
) -> Result<LineRead, Memory>
    requires rules { AreRules rules.now }
    requires names { let from = rules.now in names.now ≡ from.names }
    ensures { IfOk result (IsLineRead rules.now line.now) }
{
    if is_passed_over(line) {
        return Ok(LineRead::PassedOver);
    }
    let Some((name, text)) = split_name(line) else {
        return Ok(LineRead::BadItem);
    };
    match names.place(name) {
        Some(place) => read_item(alloc, rules, place, text),
        None => read_unknown(alloc, text),
    }
}
