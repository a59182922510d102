//! Where the lines of events begin.

ghost use Rattle.std.specs.Prelude.{◌≡◌, ◌+◌, MatchOption};
ghost use Rattle.flux_journal.specs.Journals.{is_headed, head_count, event_lines};
ghost use Rattle.flux_audit.specs.Verdicts.{HasHeadFor};
ghost use Rattle.flux_audit.specs.steps.Lines.{IsOpened};

use flux_journal::{Head, Lines, is_headed, read_head};

/// The lines of events of a text, and the number of the first of them.
#[derive(Drop)]
pub struct Opened<'a> {
    pub lines: Lines<'a>,
    pub first: u64,
}

/// The lines of events of a text, unless it is of format 2 and hasn't the head line for so many flows.
pub fn open(text: &[u8], flows: u32) -> Option<Opened<'_>>
    ensures { MatchOption result (HasHeadFor flows text.now → ⊥) (IsOpened flows text.now) }
{
    let mut lines = Lines::new(text);
    if !is_headed(text) {
        return Some(Opened { lines, first: 1 });
    }
    let head = read_head(lines.next_line()?)?;
    let wanted = Head {
        flows,
        events: lines.count(),
    };
    if head == wanted {
        Some(Opened { lines, first: 2 })
    } else {
        None
    }
}
