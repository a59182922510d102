//! The laws, each as a clause of a function that does nothing.

ghost use Rattle.flux_upheld.specs.Laws.{LegalIsReadable, LegalIsBounded, LegalIsUpheld, JoinedCanBePrinted, AllCanBePrinted, OwnCanBePrinted, SoundDeclarationsAreSound};

/// Each part of each entry of a legal journal is one that a journal's text can hold.
pub fn legal_journals_are_readable()
    ensures { LegalIsReadable }
{}

/// A legal journal has at most twice as many entries as the sizes of its flows come to, and one more for each flow.
pub fn legal_journals_are_bounded()
    ensures { LegalIsBounded }
{}

/// What is printed of a legal and whole journal is upheld.
pub fn legal_journals_are_upheld()
    ensures { LegalIsUpheld }
{}

/// The answers of the program's libraries can be printed, those of nodes of one's own, and those of two such libraries
/// as one.
pub fn answers_can_be_printed()
    ensures joined { JoinedCanBePrinted }
    ensures all { AllCanBePrinted }
    ensures own { OwnCanBePrinted }
{}

/// The program of a text's sound declarations is sound, and has names.
pub fn declarations_are_sound()
    ensures { SoundDeclarationsAreSound }
{}
