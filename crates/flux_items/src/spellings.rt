//! The values of a line.

ghost use Rattle.std.specs.Prelude.{◌≡◌, ◌++◌, ◌∷◌, [], ◌↔◌, ℕ, List, IsTrue, IfOk, OnOk};
ghost use Rattle.flux_values.specs.declared.values.Value.{Value};
ghost use Rattle.flux_items.specs.steps.Fronts.{Ends};
ghost use Rattle.flux_items.specs.steps.Values.{Close, IsNext, IsKept, AreRead};

use crate::blanks::{are_blanks, behind, skip_blanks};
use flux_spelling::read_value;
use flux_values::{Kind, List, Memory, Value, ValueFault};
use std::alloc::Global;

/// One value, and what follows it.
#[derive(Drop)]
pub enum Next<'a> {
    /// No value, or something else after it.
    Bad,
    /// The last value: `)` and blanks alone come after it.
    Last(Value),
    /// A value with a comma after it, and what follows that.
    More(Value, &'a [u8]),
}

/// What the values of a line are.
#[derive(Drop)]
pub enum ValuesRead {
    /// None: the line is of another form.
    Bad,
    /// Values of other kinds than are wanted, or more or fewer of them.
    Other,
    These(List<Value>),
}

/// Whether a line ends here: by `)` and blanks.
fn ends(rest: &[u8]) -> bool
    ensures { IsTrue result ↔ Ends rest.now }
{
    match behind(b')', rest) {
        Some(end) => are_blanks(end),
        None => false,
    }
}

/// The value at the front, and what follows it.
pub fn read_next<'a>(alloc: Global, text: &'a [u8]) -> Result<Next<'a>, Memory>
    ensures { IfOk result (IsNext text.now) }
{
    let front = skip_blanks(text);
    let (value, length) = match read_value(alloc, front) {
        Ok(read) => read,
        Err(ValueFault::Memory) => return Err(Memory),
        Err(ValueFault::BadValue { at: _ }) => return Ok(Next::Bad),
        Err(ValueFault::TooLong { at: _ }) => return Ok(Next::Bad),
    };
    let rest = skip_blanks(&front[length..]);
    if let Some(more) = behind(b',', rest) {
        return Ok(Next::More(value, more));
    }
    if ends(rest) {
        Ok(Next::Last(value))
    } else {
        Ok(Next::Bad)
    }
}

/// Values as they are read. They are kept only while they have the kinds that are wanted, so a long
/// line of others takes no memory.
#[derive(Drop)]
struct Kept<'a> {
    kinds: &'a [Kind],
    values: List<Value>,
    fits: bool,
}

impl<'a> Kept<'a> {
    fn add(&mut self, value: Value) -> Result<(), Memory>
        ensures kept { OnOk result ((all : List Value) → IsKept self.old.kinds.now all self.old.values self.old.fits
            → IsKept self.old.kinds.now (all ++ value ∷ []) self.new.values self.new.fits) }
        ensures kinds { self.new.kinds.now ≡ self.old.kinds.now }
    {
        match self.kinds.get(self.values.len()) {
            Some(kind) if self.fits && *kind == value.kind() => self.values.add(value),
            _ => {
                self.fits = false;
                Ok(())
            }
        }
    }

    /// The values, where they are as many as the kinds.
    fn done(self) -> ValuesRead
        ensures { (all : List Value) (text : List ℕ) → IsKept self.entry.kinds.now all self.entry.values self.entry.fits
            → Close all text → AreRead self.entry.kinds.now text result }
    {
        if self.fits && self.values.len() == self.kinds.len() {
            ValuesRead::These(self.values)
        } else {
            ValuesRead::Other
        }
    }
}

/// The values after `(`, up to the end of the line, where they are of these kinds.
pub fn read_values(alloc: Global, kinds: &[Kind], text: &[u8]) -> Result<ValuesRead, Memory>
    ensures { IfOk result (AreRead kinds.now text.now) }
{
    let mut kept = Kept {
        kinds,
        values: List::with_room(alloc, kinds.len())?,
        fits: true,
    };
    if ends(skip_blanks(text)) {
        return Ok(kept.done());
    }
    let mut rest = text;
    'values: loop {
        match read_next(alloc, rest)? {
            Next::Bad => return Ok(ValuesRead::Bad),
            Next::Last(value) => {
                kept.add(value)?;
                return Ok(kept.done());
            }
            Next::More(value, behind) => {
                kept.add(value)?;
                rest = behind;
            }
        }
    }
}
