//! The chosen runtime.

ghost use Rattle.std.specs.Prelude.{◌≡◌, IfOk, IfErr, OnErr};
ghost use Rattle.flow_core.specs.States.{setup_in};
ghost use Rattle.flow_core.specs.Runs.{GoesOnLegally, GoesToEnd};
ghost use Rattle.rt_all.specs.Orders.{runtime_by, IsOrder, IsOrderAlone};

use flow_core::{Core, Gate, Runtime, Stopped};
use flow_waits::drain_by;
use flux_library::Library;
use flux_values::Memory;
use rt_event::EventLoop;
use rt_perflow::PerFlow;
use rt_pool::Pool;
use rt_script::Script;
use std::marker::{Send, Sync};
use std::sync::Wait;
use std::thread::Threads;

/// One of the program's runtimes.
pub enum AnyRuntime {
    Event(EventLoop),
    Script(Script),
    PerFlow(PerFlow),
    Pool(Pool),
}

impl Drop for AnyRuntime {
    fn drop(self) {
        match self {
            AnyRuntime::Event(_) => {}
            AnyRuntime::Script(_) => {}
            AnyRuntime::PerFlow(_) => {}
            AnyRuntime::Pool(_) => {}
        }
    }
}

impl AnyRuntime {
    /// The runtime that the words name.
    pub fn by(words: flux_cli::Runtime) -> AnyRuntime
        ensures { result ≡ runtime_by words }
    {
        match words {
            flux_cli::Runtime::Event => AnyRuntime::Event(EventLoop { helpers: 0 }),
            flux_cli::Runtime::EventWithHelpers(helpers) => AnyRuntime::Event(EventLoop {
                helpers: helpers.count,
            }),
            flux_cli::Runtime::Script(numbers) => AnyRuntime::Script(Script { numbers }),
            flux_cli::Runtime::PerFlow => AnyRuntime::PerFlow(PerFlow),
            flux_cli::Runtime::Pool(workers) => AnyRuntime::Pool(Pool {
                workers: workers.count,
            }),
        }
    }

    /// Drives a core to its end, by threads where the runtime starts some. All that a runtime promises, it promises too, and
    /// the order of the runtime. A core that threads had no memory to drive on is driven to its end by the thread that calls.
    pub fn drive_by_threads<L: Library + Send + Sync, G: Gate + Sync, Rt: Threads + Wait + Sync>(
        &mut self,
        rt: &Rt,
        core: Core<L>,
        gate: &G,
    ) -> Result<Core<L>, Stopped<L>>
        ensures ok { IfOk result (GoesToEnd L.meaning core) }
        ensures err { IfErr result (λ stopped. GoesOnLegally L.meaning core stopped.core) }
        ensures order { IfOk result (λ driven. IsOrder self.old (setup_in L.meaning core) core.entries
            driven.entries) }
        ensures same { self.new ≡ self.old }
    {
        match self {
            AnyRuntime::Event(runtime) if runtime.helpers == 0 => runtime.drive_alone(core, gate),
            AnyRuntime::Event(runtime) => match runtime.drive_by_threads(rt, core, gate) {
                Ok(core) => Ok(core),
                Err(stopped) => drained(stopped, gate),
            },
            AnyRuntime::Script(runtime) => runtime.drive_alone(core, gate),
            AnyRuntime::PerFlow(runtime) => match runtime.drive(rt, core, gate) {
                Ok(core) => Ok(core),
                Err(stopped) => drained(stopped, gate),
            },
            AnyRuntime::Pool(runtime) => match runtime.drive(rt, core, gate) {
                Ok(core) => Ok(core),
                Err(stopped) => drained(stopped, gate),
            },
        }
    }

    /// Drives a core to its end on the thread that calls, without a handle for threads. Where the runtime would start threads,
    /// the flows go on as the event loop lets them, in its order.
    pub fn drive_alone<L: Library, G: Gate>(
        &mut self,
        core: Core<L>,
        gate: &G,
    ) -> Result<Core<L>, Stopped<L>>
        ensures ok { IfOk result (GoesToEnd L.meaning core) }
        ensures err { IfErr result (λ stopped. GoesOnLegally L.meaning core stopped.core) }
        ensures order { IfOk result (λ driven. IsOrder self.old (setup_in L.meaning core) core.entries
            driven.entries) }
        ensures alone { IfOk result (λ driven. IsOrderAlone self.old (setup_in L.meaning core) core.entries
            driven.entries) }
        ensures same { self.new ≡ self.old }
    {
        match self {
            AnyRuntime::Event(runtime) => runtime.drive_alone(core, gate),
            AnyRuntime::Script(runtime) => runtime.drive_alone(core, gate),
            AnyRuntime::PerFlow(_) | AnyRuntime::Pool(_) => {
                EventLoop { helpers: 0 }.drive_alone(core, gate)
            }
        }
    }
}

/// Lets the flows of a core that was stopped come to their ends, on the thread that calls.
fn drained<L: Library, G: Gate>(stopped: Stopped<L>, gate: &G) -> Result<Core<L>, Stopped<L>>
    ensures ok { IfOk result (GoesToEnd L.meaning stopped.core) }
    ensures err { IfErr result (λ again. GoesOnLegally L.meaning stopped.core again.core) }
{
    let Stopped { mut core } = stopped;
    match drain_by(&mut core, gate) {
        Ok(()) => Ok(core),
        Err(Memory) => Err(Stopped { core }),
    }
}

/// No impl of the trait can start threads: where a runtime is met as a trait's, the chosen one drives alone.
impl Runtime for AnyRuntime {
    ghost ready = { λ _. Unit {0} };

    fn drive<L: Library, G: Gate, Rt: Threads + Wait + Sync>(
        &mut self,
        _rt: &Rt,
        core: Core<L>,
        gate: &G,
    ) -> Result<Core<L>, Stopped<L>>
        requires { Unit {0} }
        ensures again { Unit {0} }
        ensures ok { IfOk result (GoesToEnd L.meaning core) }
        ensures err { IfErr result (λ stopped. GoesOnLegally L.meaning core stopped.core) }
        ensures still { OnErr result (self.new ≡ self.old) }
        ensures order { IfOk result (λ driven. IsOrder self.old (setup_in L.meaning core) core.entries
            driven.entries) }
        ensures alone { IfOk result (λ driven. IsOrderAlone self.old (setup_in L.meaning core) core.entries
            driven.entries) }
        ensures same { self.new ≡ self.old }
    {
        self.drive_alone(core, gate)
    }
}
