//! Blanks, and the lines that are passed over.

ghost use Rattle.std.specs.Prelude.{◌≡◌, ◌≤◌, ◌↔◌, ℕ, List, ◌∷◌, IsTrue, IfSome, IfNone, length};
ghost use Rattle.std.specs.List.{prefix_len, list_all};
ghost use Rattle.flux_items.specs.Lines.{is_blank, IsPassedOver};
ghost use Rattle.flux_items.specs.steps.Fronts.{past_blanks};

fn is_blank(byte: u8) -> bool
    ensures { result ≡ is_blank byte }
{
    matches!(byte, b' ' | b'\t' | b'\r')
}

fn blank_length(text: &[u8]) -> usize
    ensures value { result ≡ prefix_len is_blank text.now }
    ensures within { result ≤ length text.now }
{
    text.iter().take_while(|byte| is_blank(**byte)).count()
}

/// What follows the blanks at the front.
pub fn skip_blanks(text: &[u8]) -> &[u8]
    ensures rest { result.now ≡ past_blanks text.now }
    ensures within { length result.now ≤ length text.now }
{
    &text[blank_length(text)..]
}

pub fn are_blanks(text: &[u8]) -> bool
    ensures { result ≡ list_all is_blank text.now }
{
    text.iter().all(|byte| is_blank(*byte))
}

/// What follows a mark at the front.
pub fn behind(mark: u8, text: &[u8]) -> Option<&[u8]>
    ensures found { IfSome result (λ rest. text.now ≡ mark ∷ rest.now) }
    ensures none { IfNone result ((rest : List ℕ) → text.now ≡ mark ∷ rest → ⊥) }
{
    match text {
        [first, rest @ ..] if *first == mark => Some(rest),
        _ => None,
    }
}

/// Whether a line has blanks alone, or a `#` after its blanks.
pub fn is_passed_over(line: &[u8]) -> bool
    ensures { IsTrue result ↔ IsPassedOver line.now }
{
    let text = skip_blanks(line);
    text.is_empty() || behind(b'#', text).is_some()
}
