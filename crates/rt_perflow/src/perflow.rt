//! The runtime.

ghost use Rattle.std.specs.Prelude.{◌≡◌, IfOk, IfErr};
ghost use Rattle.flow_core.specs.Runs.{GoesOnLegally, GoesToEnd};

use crate::leaves::rounds;
use flow_core::{Core, Gate, Stopped};
use flow_turns::settle;
use flux_library::Library;
use std::marker::{Send, Sync};
use std::sync::Wait;
use std::thread::Threads;

/// Drives a core by a thread for each flow, in groups of up to 64.
#[derive(Clone, Copy)]
pub struct PerFlow;

impl PerFlow {
    /// Drives a core to its end. What a runtime promises, it promises too, for whatever order the threads' turns have.
    pub fn drive<L: Library + Send + Sync, G: Gate + Sync, R: Threads + Wait + Sync>(
        &mut self,
        rt: &R,
        core: Core<L>,
        gate: &G,
    ) -> Result<Core<L>, Stopped<L>>
        ensures ok { IfOk result (GoesToEnd L.meaning core) }
        ensures err { IfErr result (λ stopped. GoesOnLegally L.meaning core stopped.core) }
        ensures same { self.new ≡ self.old }
    {
        let halted = core.is_halted();
        let mut core = core;
        core.resume();
        settle(rounds(rt, core, gate), halted)
    }
}
