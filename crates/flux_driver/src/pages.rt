//! A text in pages, written.

ghost use Rattle.std.specs.Prelude.{◌≡◌, ◌≤◌, OnOk, OnErr};
ghost use Rattle.std.specs.List.{flat_map};
ghost use Rattle.flux_outside.specs.Streams.{Wrote, Broke};

use flux_journal::Pages;
use flux_outside::{Failed, Sink, write_all};
use flux_values::Bytes;

/// Writes pages, one after the other.
fn write_full<O: Sink>(out: &mut O, pages: &[Bytes]) -> Result<(), Failed>
    ensures later { (O.seen out.old).faults ≤ (O.seen out.new).faults }
    ensures wrote { OnOk result (Wrote (O.seen out.old) (O.seen out.new)
        (flat_map (λ page. page) pages.now)) }
    ensures broke { OnErr result (Broke (O.seen out.old) (O.seen out.new)
        (flat_map (λ page. page) pages.now)) }
{
    for page in pages {
        write_all(out, page.as_bytes())?;
    }
    Ok(())
}

/// Writes all of a text.
pub fn write_pages<O: Sink>(out: &mut O, text: &Pages) -> Result<(), Failed>
    ensures later { (O.seen out.old).faults ≤ (O.seen out.new).faults }
    ensures wrote { OnOk result (Wrote (O.seen out.old) (O.seen out.new) text.now) }
    ensures broke { OnErr result (Broke (O.seen out.old) (O.seen out.new) text.now) }
{
    let (full, last) = text.parts();
    write_full(out, full)?;
    write_all(out, last)
}
