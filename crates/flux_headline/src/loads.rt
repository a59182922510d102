//! The laws of `load` with the library of the program: each is the contract of a function that does nothing.

ghost use Rattle.flux_headline.specs.LoadTexts.{IsProgramSound};
ghost use Rattle.flux_headline.specs.LoadsDone.{LoadsAreLoadable, LoadsEndSo, LoadsAreDone, NoLoadHasFault};

/// The program's text declares what it should, which is sound with any documents.
pub fn program_is_sound()
    ensures { IsProgramSound }
{}

/// With the library that the program is built with, `load` answers 0, or 6 where writing failed, unless memory is
/// short; it never answers that a text of its own has a fault.
pub fn loads_are_done()
    ensures loadable { LoadsAreLoadable }
    ensures end { LoadsEndSo }
    ensures done { LoadsAreDone }
    ensures faultless { NoLoadHasFault }
{}
