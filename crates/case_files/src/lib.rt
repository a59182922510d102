//! Case files: what their lines say, what of a case differs, and the report on it.
//!
//! `read_lines` reads a file, `Case::of` gathers the lines of a case, `Differences` compares what came of it with what it wants, and
//! `Report` tells of it. `docs/CASES.md` tells how a case is written. What runs cases is `flux_cases`, over the driver; this crate knows
//! nothing of it, so that it is proved beside.
#![tactic(auto)]

mod bodies;
mod cases;
mod differences;
mod entries;
mod keys;
mod lines;
mod reports;
mod settings;
mod spellings;

pub use bodies::Documents;
pub use cases::{Case, Shape};
pub use differences::Differences;
pub use entries::{Entry, Gain, Line, Measure, Part, Stream};
pub use lines::read_lines;
pub use reports::Report;
pub use trial_ends::Trouble;
