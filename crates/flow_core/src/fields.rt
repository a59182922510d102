//! The fields of a core, and what moves write into its journal.

ghost use Rattle.std.specs.Prelude.{◌≡◌, List, [], ◌∷◌, ◌++◌, None, map as mapped, IfOk, OnOk, OnErr};
ghost use Rattle.std.specs.Arc.{arc_value};
ghost use Rattle.flow_model.specs.declared.journals.Entry.{Entry};
ghost use Rattle.flow_state.specs.States.{MayRun};
ghost use Rattle.flow_core.specs.States.{opened};
ghost use Rattle.flow_core.specs.steps.Fields.{core_of, AreFields};

use crate::calls::Begun;
use flow_model::{Entry, Journal};
use flow_state::{Setup, State};
use flux_library::Library;
use flux_model::Item;
use flux_values::{List, Memory};
use std::alloc::Global;

/// What a core keeps: where its flows are, the journal, and the call that each flow has begun.
#[derive(Drop)]
pub struct Fields<L: Library> {
    pub state: State<L>,
    pub journal: Journal,
    pub begun: Vec<Option<Begun>>,
    pub halted: bool,
}

/// Adds an entry.
pub fn write(journal: &mut Journal, entry: Entry) -> Result<(), Memory>
    ensures ok { OnOk result (journal.new.entries ≡ journal.old.entries ++ entry ∷ []) }
    ensures err { OnErr result (journal.new.entries ≡ journal.old.entries) }
{
    journal.entries.add(entry)
}

/// Takes the last entry back.
pub fn take_back(journal: &mut Journal)
    ensures { (entries : List Entry) (last : Entry) → journal.old.entries ≡ entries ++ last ∷ []
        → journal.new.entries ≡ entries }
{
    drop(journal.entries.pop());
}

/// No call is begun.
fn none_begun(alloc: Global, items: &[Item]) -> Result<Vec<Option<Begun>>, Memory>
    ensures { IfOk result (λ begun. begun.items ≡ mapped (λ item. None) items.now) }
{
    let mut begun = Vec::new(alloc);
    for item in items {
        let _ = item;
        begun.push(None)?;
    }
    Ok(begun)
}

impl<L: Library> Fields<L> {
    /// Flows that have done nothing.
    pub fn new(alloc: Global, setup: Setup<L>) -> Result<Fields<L>, Memory>
        requires { MayRun (L.meaning (arc_value setup.library)) (arc_value setup.program)
            (arc_value setup.plans) setup.items }
        ensures core { IfOk result (λ fields. core_of fields
            ≡ opened (arc_value setup.program) (arc_value setup.plans) setup.items setup.opening
            (arc_value setup.library)) }
        ensures fields { IfOk result (AreFields L.meaning) }
    {
        let begun = none_begun(alloc, setup.items.as_slice())?;
        let state = State::new(alloc, setup)?;
        Ok(Fields {
            state,
            journal: Journal {
                entries: List::new(alloc),
            },
            begun,
            halted: false,
        })
    }
}
