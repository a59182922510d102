//! Values, texts and lists: what flows carry and what nodes answer.
//!
//! Contracts see a `List` as a list, a `TextBytes` and a `Bytes` as a list of bytes, and a `Cell`
//! as a finite map from text to value. `specs/` also says how values are spelled, which the crate that
//! prints and reads them meets. Whatever takes memory says so by `Memory`, or by handing the item back,
//! and changes nothing then.
#![tactic(auto)]

mod answers;
mod cells;
mod failures;
mod lists;
mod meanings;
mod texts;
mod values;

pub use answers::{Answer, CallResult, Mode, Put};
pub use cells::Cell;
pub use failures::{Memory, TextFault, ValueFault};
pub use lists::List;
pub use meanings::{CellUse, Meaning, Role, Sig};
pub use texts::{Bytes, EMISSION_LIMIT, TEXT_LIMIT, TextBytes};
pub use values::{Kind, Value};
