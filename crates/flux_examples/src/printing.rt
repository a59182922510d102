//! What can be printed, is kept or is in use, by example: the contract of a function that does nothing.

ghost use Rattle.flux_examples.specs.Printing.{Fits, Refuses};

/// What an answer can put and emit, which file is what a run printed, which locks a table keeps; and what isn't so.
pub fn printing_by_example()
    ensures fits { Fits }
    ensures refused { Refuses }
{}
