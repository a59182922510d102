//! Conflicting sections never overlap.

ghost use Rattle.flux_laws.specs.Sections.{SectionsNeverConflict};

/// Where flows follow their walks with the program's locks, and no take is made where another flow holds that key in
/// conflict, no two sections conflict.
pub fn sections_never_conflict()
    ensures { SectionsNeverConflict }
{}
