//! Lists of like things with a mark between them.

ghost use Rattle.std.specs.Prelude.{◌≡◌, ◌≤◌, ◌<◌, OnOk, [], length};
ghost use Rattle.flux_syntax.specs.steps.Reading.{Reads, ReadsOnto, onto, listed_at};

use crate::cursors::{Cursor, Stop};
use flux_lexer::TokenKind;
use flux_values::{List, Memory};

/// How one thing of a list is read.
pub trait Reader<T: Drop> {
    ghost use Rattle.std.specs.Prelude.{List};
    ghost use Rattle.flux_syntax.specs.Symbols.{Symbol};
    ghost use Rattle.flux_syntax.specs.steps.Reading.{Read};

    ghost read: { List Symbol → Read T };

    fn read(cursor: &mut Cursor) -> Result<T, Stop>
        ensures read { Reads result cursor.new (read cursor.old) }
        ensures shorter { OnOk result (length cursor.new < length cursor.old) };
}

/// One thing more.
fn read_onto<T: Drop, R: Reader<T>>(cursor: &mut Cursor, items: &mut List<T>) -> Result<(), Stop>
    ensures read { ReadsOnto result items.new cursor.new (onto R.read items.old cursor.old) }
    ensures shorter { OnOk result (length cursor.new < length cursor.old) }
{
    let item = R::read(cursor)?;
    if items.push(item).is_err() {
        Err(Memory)?;
    }
    Ok(())
}

/// One thing, and more of them as long as the mark is between.
pub fn list<T: Drop, R: Reader<T>>(cursor: &mut Cursor, between: TokenKind) -> Result<List<T>, Stop>
    ensures read { Reads result cursor.new (listed_at R.read between cursor.old) }
    ensures shorter { OnOk result (length cursor.new < length cursor.old) }
{
    let mut items = List::new(cursor.alloc());
    read_onto::<T, R>(cursor, &mut items)?;
    while cursor.takes(between) {
        read_onto::<T, R>(cursor, &mut items)?;
    }
    Ok(items)
}
