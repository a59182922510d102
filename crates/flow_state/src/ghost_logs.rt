//! Lists of entries that take no memory: each is its last entry with those before it, as clauses see them.

use flow_model::{CallMade, Entry};
use flux_model::FlowNo;
use std::marker::Model;
use std::snapshot::Snapshot;

/// The last of some entries, with those before it.
#[cycle(log)]
#[derive(Drop)]
pub enum LastEntry {
    Nothing,
    Entry(Snapshot<GhostLog>, Snapshot<Entry>),
    Call(Snapshot<GhostLog>, FlowNo, Snapshot<CallMade>),
}

/// Some entries, by their last one.
#[cycle(log)]
#[derive(Drop)]
pub struct GhostLog {
    pub last: LastEntry,
}

impl Model for GhostLog {
    ghost use Rattle.std.specs.Prelude.{List, length};
    ghost use Rattle.flow_model.specs.declared.journals.Entry.{Entry};

    ghost Value = { List Entry };

    ghost use Rattle.flow_state.specs.steps.GhostLogs.{entries_in};

    ghost view = { λ log. entries_in log.last };

    ghost size = { length };

    ghost use Rattle.std.proofs.Common.{arith, length-append};

    ghost size_decreases = { λ a h. Prim.grind (arith, length-append) };
}
