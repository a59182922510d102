//! The texts of a load.

ghost use Rattle.std.specs.Prelude.{◌≡◌, ◌++◌, ◌+◌, ◌*◌, ◌%◌, ◌<◌, ◌^◌, IfOk, OnOk};
ghost use Rattle.flux_load.specs.Loads.{program_text, item_line, items_text};

use flux_spelling::append_number;
use flux_values::{Bytes, Memory};
use std::alloc::Global;

/// The program.
const PROGRAM: &[u8] =
    b"Tick () => (int n);\nPass (int n) => (int n);\nAdd (int n) => (int n);\nBump (int n) => (int n);\ntypedef zero IsZero;\nsource Tick => Load;\nsession Tick => ByNumber;\nLoad:[zero] = Pass;\nLoad:[_] = Visit -> Add;\nVisit = Bump;\natomic Load:{aisle?};\natomic Visit:{zone?};\natomic Bump:{visits(session)};\natomic Add:{counter};\n";

/// Adds the line of an item.
fn append_item(alloc: Global, out: &mut Bytes, first: u32, place: u32) -> Result<(), Memory>
    ensures { OnOk result (out.new ≡ out.old ++ item_line first place) }
{
    let number = (u64::from(first) + 7 * u64::from(place)) % 10;
    out.append(b"Tick (")?;
    append_number(alloc, out, number)?;
    out.append(b")\n")
}

/// The items, so many, which count up from the last digit of a first number.
fn make_items(alloc: Global, count: u32, first: u32) -> Result<Bytes, Memory>
    ensures { IfOk result (λ text. text ≡ items_text count first) }
{
    let mut out = Bytes::new(alloc);
    for place in 0..count {
        append_item(alloc, &mut out, first, place)?;
    }
    Ok(out)
}

/// The program's text, and the text of so many items, by a first number.
pub fn make(alloc: Global, count: u32, first: u32) -> Result<(Bytes, Bytes), Memory>
    ensures program { IfOk result (λ texts. texts.0 ≡ program_text) }
    ensures items { IfOk result (λ texts. texts.1 ≡ items_text count first) }
{
    let program = Bytes::copy(alloc, PROGRAM)?;
    let items = make_items(alloc, count, first)?;
    Ok((program, items))
}
