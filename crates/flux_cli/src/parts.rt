//! The parts of the command line after the command's word.

ghost use Rattle.std.specs.Prelude.{◌≡◌, ◌<◌, ◌∷◌, ◌++◌, ◌↔◌, ℕ, List, IsTrue, IfSome, IfNone, length};
ghost use Rattle.flux_cli.specs.declared.names.OptionName.{OptionName};
ghost use Rattle.flux_cli.specs.Parts as parts;
ghost use Rattle.flux_cli.specs.Parts.{IsPositional, IsFilled, IsNoOption, Begins, spelled};
ghost use Rattle.flux_cli.specs.steps.Found.{part_of};

use crate::names::{OptionName, split_name};
use flux_values::Bytes;

/// A positional word, or an option with its value.
#[derive(Clone, Copy)]
pub enum Part<'a> {
    Word(&'a [u8]),
    Option(OptionName, &'a [u8]),
}

/// Whether a word can be a file's name: it isn't empty, and no option.
pub fn is_positional(word: &[u8]) -> bool
    ensures { IsTrue result ↔ IsPositional word.now }
{
    match word {
        [] => false,
        [first, ..] => *first != b'-',
    }
}

/// Whether a word can't be an option.
fn is_no_option(word: &[u8]) -> bool
    ensures { IsTrue result ↔ IsNoOption word.now }
{
    match word {
        [b'-', b'-', ..] => false,
        _ => true,
    }
}

/// The option at the front whose name takes a word of its own.
fn take_value<'a>(name: OptionName, behind: &'a [Bytes]) -> Option<(Part<'a>, &'a [Bytes])>
    ensures found { IfSome result (λ taken. Begins (part_of taken.0) (spelled name ∷ behind.now) taken.1.now) }
    ensures shorter { IfSome result (λ taken. length taken.1.now < length behind.now) }
    ensures none { IfNone result ((value : List ℕ) (rest : List (List ℕ))
        → behind.now ≡ value ∷ rest → IsFilled value → IsNoOption value → ⊥) }
{
    let [first, rest @ ..] = behind else {
        return None;
    };
    let value = first.as_bytes();
    if !value.is_empty() && is_no_option(value) {
        Some((Part::Option(name, value), rest))
    } else {
        None
    }
}

/// The part at the front, and the words after it.
pub fn take_part<'a>(words: &'a [Bytes]) -> Option<(Part<'a>, &'a [Bytes])>
    ensures found { IfSome result (λ taken. Begins (part_of taken.0) words.now taken.1.now) }
    ensures shorter { IfSome result (λ taken. length taken.1.now < length words.now) }
    ensures none { IfNone result ((part : parts.Part) (rest : List (List ℕ))
        → Begins part words.now rest → ⊥) }
{
    let [first, rest @ ..] = words else {
        return None;
    };
    let word = first.as_bytes();
    match split_name(word) {
        Some((name, [])) => take_value(name, rest),
        Some((name, [b'=', value @ ..])) if !value.is_empty() => {
            Some((Part::Option(name, value), rest))
        }
        Some(_) => None,
        None if is_positional(word) => Some((Part::Word(word), rest)),
        None => None,
    }
}
