//! What an audit answers.

/// A rule of journals, in the order in which they are looked at for one line.
#[derive(Clone, Copy, PartialEq, Eq)]
pub enum Rule {
    /// A head line tells the number of flows, and how many lines follow.
    Head,
    /// Each line spells an event of the program.
    Text,
    /// Its flow is an item's.
    Flow,
    /// Its event is the flow's next one.
    Path,
    /// A call's answer is the library's.
    Answer,
    /// A taken key isn't held by another flow in conflict.
    Hold,
    /// Nobody overtakes a flow that waits.
    Turn,
    /// A flow that waits is blocked.
    Wait,
    /// Each flow reaches its end.
    Short,
}

/// What an audit answers.
#[derive(Clone, Copy, PartialEq, Eq)]
pub enum Verdict {
    /// The text is the journal of a true run, with so many events.
    Yes { events: u64 },
    /// The first line that breaks a rule, from 1 and from the head line, and the first rule that it breaks.
    No { line: u64, rule: Rule },
}
