//! Texts cut at a byte, after a word, and read as a number.

ghost use Rattle.std.specs.Prelude.{◌≡◌, ◌≤◌, ◌++◌, ◌==◌, ℕ, List, IfSome, IfNone, length};
ghost use Rattle.std.specs.List.{position_or_len};
ghost use Rattle.flux_journal.specs.steps.Cuts.{IsCut, HasNone, IsNumber};

use flux_spelling::read_decimal;

/// How many bytes are before the first mark, or in all.
fn length_before(mark: u8, text: &[u8]) -> usize
    ensures value { result ≡ position_or_len (λ b. b == mark) text.now }
    ensures within { result ≤ length text.now }
{
    let mut place = 0;
    while place < text.len() && text[place] != mark {
        place += 1;
    }
    place
}

/// What is before and after the first mark.
pub fn cut(mark: u8, text: &[u8]) -> Option<(&[u8], &[u8])>
    ensures found { IfSome result (λ parts. IsCut mark text.now parts.0.now parts.1.now) }
    ensures none { IfNone result (HasNone mark text.now) }
{
    let place = length_before(mark, text);
    if place == text.len() {
        return None;
    }
    Some((&text[..place], &text[place + 1..]))
}

/// What follows a word at the front.
pub fn behind<'a>(word: &[u8], text: &'a [u8]) -> Option<&'a [u8]>
    ensures found { IfSome result (λ rest. text.now ≡ word.now ++ rest.now) }
    ensures none { IfNone result ((rest : List ℕ) → text.now ≡ word.now ++ rest → ⊥) }
{
    text.strip_prefix(word)
}

/// The number up to a limit that the bytes are, in decimal without leading zeros.
pub fn read_number(bytes: &[u8], limit: u64) -> Option<u64>
    requires { 9 ≤ limit }
    ensures found { IfSome result (IsNumber limit bytes.now) }
    ensures none { IfNone result ((number : ℕ) → IsNumber limit bytes.now number → ⊥) }
{
    match read_decimal(bytes, limit) {
        Some((number, length)) if length == bytes.len() => Some(number),
        _ => None,
    }
}
