//! The end of a drive.

ghost use Rattle.std.specs.Prelude.{◌≡◌, ◌↔◌, true, IfOk, IfErr, OnErr, IsTrue};
ghost use Rattle.flow_core.specs.Runs.{GoesOn};
ghost use Rattle.flow_turns.specs.Settling.{IsSetBack, EndsWhole};
ghost use Rattle.flow_turns.specs.Workers.{IsOver};

use flow_core::{Core, Stopped, none_live_is_whole};
use flux_library::Library;

/// Whether a drive is over: the core is halted, or no flow is live.
pub fn is_over<L: Library>(core: &Core<L>) -> bool
    ensures { IsTrue result ↔ IsOver core.now }
{
    core.is_halted() || core.live() == 0
}

/// Halts a core, where there was no memory to drive it.
pub fn give_up<L: Library>(core: Core<L>) -> Core<L>
    ensures on { GoesOn core result }
    ensures halted { result.halted ≡ true }
{
    let mut core = core;
    core.halt();
    core
}

/// Sets the flag of a core whose drive is over, and hands the core over as driven if no flow is live, and else as stopped. It is
/// stopped only where it was halted.
pub fn settle<L: Library>(core: Core<L>, halted: bool) -> Result<Core<L>, Stopped<L>>
    requires { IsOver core }
    ensures want { OnErr result (core.halted ≡ true) }
    ensures ok { IfOk result (EndsWhole L.meaning core halted) }
    ensures err { IfErr result (λ stopped. IsSetBack L.meaning core halted stopped.core) }
{
    let mut core = core;
    if halted {
        core.halt();
    } else {
        core.resume();
    }
    none_live_is_whole::<L>();
    // Asked for what it promises.
    let _journal = core.journal();
    if core.live() == 0 {
        Ok(core)
    } else {
        Err(Stopped { core })
    }
}
