//! What drives a core to its end.

ghost use Rattle.std.specs.Prelude.{◌≡◌, IfOk, IfErr, OnErr};
ghost use Rattle.flow_core.specs.Runs.{GoesOnLegally, GoesToEnd};

use crate::cores::Core;
use crate::gates::Gate;
use flux_library::Library;
use std::marker::Sync;
use std::sync::Wait;
use std::thread::Threads;

/// Want of memory, which hands the core back.
#[derive(Drop)]
pub struct Stopped<L: Library> {
    pub core: Core<L>,
}

/// A way to let a core's flows run, alone or by several threads. It calls the gate before and after each call of a
/// node.
pub trait Runtime {
    /// What a runtime has to be to drive a core, as it is again afterwards.
    ghost ready: { Self → Type 0 };

    /// Drives a core to its end. A runtime that couldn't is as it was.
    fn drive<L: Library, G: Gate, Rt: Threads + Wait + Sync>(
        &mut self,
        rt: &Rt,
        core: Core<L>,
        gate: &G,
    ) -> Result<Core<L>, Stopped<L>>
        requires { ready self.old }
        ensures again { ready self.new }
        ensures ok { IfOk result (GoesToEnd L.meaning core) }
        ensures err { IfErr result (λ stopped. GoesOnLegally L.meaning core stopped.core) }
        ensures still { OnErr result (self.new ≡ self.old) };
}
