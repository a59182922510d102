//! Texts added between quotes. A short one whose bytes mean themselves is laid out on the stack with
//! what is on its two sides, and added as one piece.

ghost use Rattle.std.specs.Prelude.{◌≡◌, ◌≤◌, ◌+◌, ◌++◌, OnOk, length, take};
ghost use Rattle.std.specs.List.{list_all};
ghost use Rattle.flux_values.specs.Texts.{printed_text};
ghost use Rattle.flux_journal.specs.steps.Quotes.{is_plain_byte, quoted};

use flux_spelling::append_text;
use flux_values::{Bytes, Memory};

/// How many bytes a piece has room for: a text, its two quotes, and what is on each side of them.
const PIECE_LENGTH: usize = 64;

/// How many bytes a text in a piece has at most.
const TEXT_LENGTH: usize = 40;

/// How many bytes are on each side at most.
const SIDE_LENGTH: usize = 11;

/// Adds a text's spelling with bytes before and after it. After an `Err` a part of them may be there.
#[tactic(auto, using(crate::proofs::Quoted::plain_is))]
pub fn append_quoted(
    out: &mut Bytes,
    before: &[u8],
    text: &[u8],
    behind: &[u8],
) -> Result<(), Memory>
    ensures { OnOk result (out.new ≡ out.old ++ (before.now ++ printed_text text.now ++ behind.now)) }
{
    if is_plain(text) {
        return append_plain(out, before, text, behind);
    }
    out.append(before)?;
    append_text(out, text)?;
    out.append(behind)
}

/// Whether each byte of a text means itself between quotes.
fn is_plain(text: &[u8]) -> bool
    ensures { result ≡ list_all is_plain_byte text.now }
{
    text.iter().all(|byte| is_plain_byte(*byte))
}

fn is_plain_byte(byte: u8) -> bool
    ensures { result ≡ is_plain_byte byte }
{
    matches!(byte, 32..=126) && byte != b'"' && byte != b'\\'
}

/// Adds bytes between quotes as they are, with bytes before and after: as one piece where all are few.
fn append_plain(out: &mut Bytes, before: &[u8], text: &[u8], behind: &[u8]) -> Result<(), Memory>
    ensures { OnOk result (out.new ≡ out.old ++ (before.now ++ quoted text.now ++ behind.now)) }
{
    if before.len() > SIDE_LENGTH || text.len() > TEXT_LENGTH || behind.len() > SIDE_LENGTH {
        return append_parts(out, before, text, behind);
    }
    let mut piece = [0; PIECE_LENGTH];
    let front = lay(&mut piece, 0, before);
    let opened = lay(&mut piece, front, b"\"");
    let closing = lay(&mut piece, opened, text);
    let closed = lay(&mut piece, closing, b"\"");
    let end = lay(&mut piece, closed, behind);
    out.append(&piece[..end])
}

/// Adds the same, part after part.
fn append_parts(out: &mut Bytes, before: &[u8], text: &[u8], behind: &[u8]) -> Result<(), Memory>
    ensures { OnOk result (out.new ≡ out.old ++ (before.now ++ quoted text.now ++ behind.now)) }
{
    out.append(before)?;
    out.append(b"\"")?;
    out.append(text)?;
    out.append(b"\"")?;
    out.append(behind)
}

/// Lays bytes into a piece from a place on, and tells where they end.
fn lay(piece: &mut [u8], at: usize, bytes: &[u8]) -> usize
    requires { at + length bytes.now ≤ length piece.old }
    ensures end { result ≡ at + length bytes.now }
    ensures laid { take result piece.new ≡ take at piece.old ++ bytes.now }
{
    let end = at + bytes.len();
    piece[at..end].copy_from_slice(bytes);
    end
}
