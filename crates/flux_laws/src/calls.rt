//! What calls are given.

ghost use Rattle.flux_laws.specs.Calls.{NextCallsFit, CallsStay};

/// In a program that is sound for a lawful library, a call that is next in a legal journal is of a concrete node on
/// values that its library node takes.
pub fn next_calls_fit()
    ensures { NextCallsFit }
{}

/// A flow that is at a call stays there while other flows go on, and the cells that the call reads stay as they are.
pub fn calls_stay()
    ensures { CallsStay }
{}
