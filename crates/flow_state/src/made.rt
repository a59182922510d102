//! The entries that were made. Only clauses see them: they take no memory.

ghost use Rattle.std.specs.Prelude.{◌≡◌, [], ◌∷◌, ◌++◌};
ghost use Rattle.flow_model.specs.declared.journals.Event.TheVariants as events;
ghost use Rattle.flow_state.specs.steps.GhostLogs.{entries_in};

use crate::ghost_logs::{GhostLog, LastEntry};
use flow_model::{CallMade, Entry};
use flux_model::FlowNo;
use std::marker::Model;
use std::snapshot::Snapshot;

/// The entries that were made, seen as their list.
#[derive(Drop)]
pub struct Made {
    log: Snapshot<GhostLog>,
}

impl Model for Made {
    ghost use Rattle.std.specs.Prelude.{List};
    ghost use Rattle.flow_model.specs.declared.journals.Entry.{Entry};
    ghost use Rattle.flow_model.specs.contracts.journals.Entry as entry;
    ghost use Rattle.std.specs.Coded.{coded_list};

    ghost Value = { List Entry };

    ghost coded = { coded_list entry.the_row.coded };

    ghost view = { λ m. m.log.value };
}

impl Made {
    pub fn new() -> Made
        ensures { result ≡ [] }
    {
        Made {
            log: snapshot_of(LastEntry::Nothing),
        }
    }

    /// One entry more.
    pub fn add(&mut self, entry: &Entry)
        ensures { self.new ≡ self.old ++ entry.now ∷ [] }
    {
        let before = std::mem::replace(&mut self.log, snapshot_of(LastEntry::Nothing));
        self.log = snapshot_of(LastEntry::Entry(before, Snapshot::of(entry)));
    }

    /// A call more, with its answer.
    pub fn add_call(&mut self, flow: FlowNo, made: &CallMade)
        ensures { self.new ≡ self.old ++ record { flow = flow; event = events.Call made.now } ∷ [] }
    {
        let before = std::mem::replace(&mut self.log, snapshot_of(LastEntry::Nothing));
        self.log = snapshot_of(LastEntry::Call(before, flow, Snapshot::of(made)));
    }
}

/// A log with this last entry, as a value that only clauses see.
fn snapshot_of(last: LastEntry) -> Snapshot<GhostLog>
    ensures { result.value ≡ entries_in last }
{
    let log = GhostLog { last };
    Snapshot::of(&log)
}
