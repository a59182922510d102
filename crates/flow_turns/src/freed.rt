//! Flows that entries may free.

use flow_core::Core;
use flow_model::Event;
use flux_library::Library;
use flux_model::{FlowNo, Mode};
use flux_table::Waiter;
use flux_values::Memory;

/// Adds the first flows of a line, to the first writer. No other flow of it can take the key before these.
fn add_front(freed: &mut Vec<FlowNo>, line: &[Waiter]) -> Result<(), Memory> {
    for waiter in line {
        freed.push(waiter.flow)?;
        if waiter.mode == Mode::Writer {
            break;
        }
    }
    Ok(())
}

/// The flows that the entries from a place on may let go on. A flow that waits in a line may do so once its key is dropped.
pub fn freed_since<L: Library>(core: &Core<L>, known: usize) -> Result<Vec<FlowNo>, Memory> {
    let mut freed = Vec::new(core.alloc());
    let entries = core.journal().entries.as_slice();
    if known >= entries.len() {
        return Ok(freed);
    }
    for entry in &entries[known..] {
        if let Event::Drop(key) = &entry.event {
            add_front(&mut freed, core.line(key.key()))?;
        }
    }
    Ok(freed)
}
