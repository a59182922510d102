//! The values that flows carry.

ghost use Rattle.std.specs.Prelude.{◌≡◌, IfOk};
ghost use Rattle.flux_values.specs.Values.{kind_of, text_of};

use crate::failures::Memory;
use crate::texts::TextBytes;
use std::alloc::Global;

/// What kind of value is in a place.
#[derive(Clone, Copy, PartialEq, Eq)]
pub enum Kind {
    Int,
    Bool,
    Text,
}

#[derive(PartialEq, Eq)]
pub enum Value {
    Int(i64),
    Bool(bool),
    Text(TextBytes),
}

impl Drop for Value {
    fn drop(self) {
        match self {
            Value::Int(_) => {}
            Value::Bool(_) => {}
            Value::Text(_) => {}
        }
    }
}

impl Value {
    pub fn kind(&self) -> Kind
        ensures { result ≡ kind_of self.now }
    {
        match self {
            Value::Int(_) => Kind::Int,
            Value::Bool(_) => Kind::Bool,
            Value::Text(_) => Kind::Text,
        }
    }

    /// The text that this is, or None where it is of another kind.
    pub fn into_text(self) -> Option<TextBytes>
        ensures { result ≡ text_of self }
    {
        match self {
            Value::Int(_) | Value::Bool(_) => None,
            Value::Text(text) => Some(text),
        }
    }

    pub fn copy(&self, alloc: Global) -> Result<Value, Memory>
        ensures { IfOk result (λ copied. copied ≡ self.now) }
    {
        match self {
            Value::Int(number) => Ok(Value::Int(*number)),
            Value::Bool(truth) => Ok(Value::Bool(*truth)),
            Value::Text(text) => Ok(Value::Text(text.again(alloc)?)),
        }
    }
}
