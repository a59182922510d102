//! The simulation, tick by tick.

ghost use Rattle.std.specs.Prelude.{◌≡◌, ◌<◌, ◌≤◌, ℕ, List, [], ◌∷◌, ◌++◌, length, None, Some, IsSome, IfOk, IfErr, OnOk, OnErr};
ghost use Rattle.std.specs.List.{sum_by};
ghost use Rattle.flux_laws.specs.Growth.{item_size};
ghost use Rattle.flow_core.specs.States.{setup_in, begun_by, IsKept};
ghost use Rattle.flow_core.specs.Runs.{GoesToEnd, GoesOnLegally};
ghost use Rattle.flow_waits.specs.Idle.{IsFirstIdle};
ghost use Rattle.flow_waits.specs.steps.Covers.{IsReady, Covers, Lags};
ghost use Rattle.flow_waits.specs.steps.Aside.{beside};
ghost use Rattle.flow_waits.specs.Driven.{IsJobOf};
ghost use Rattle.flow_orders.specs.Costs.{AreCosts};
ghost use Rattle.flow_orders.specs.Ticks.{timed, last_tick};
ghost use Rattle.flow_orders.specs.Runs.{IsOneRunACall, NeverMoreRuns, sum_of_costs};
ghost use Rattle.flow_orders.specs.Rule.{IsByTheRule};
ghost use Rattle.flow_orders.specs.Idle.{NeverIdleForNothing};
ghost use Rattle.flux_simulate.specs.steps.Ticking.{AllLast, AllStandStill, Finishes, Goes, Begins, Rests, IsFurtherTick, IsNextTick, GoesFurther, Watches};
ghost use Rattle.flux_simulate.specs.steps.Calls.{IsRunOf, EndsBegun, HasStarted, AreSmall};

use crate::clock::Clock;
use crate::runs::Simulated;
use flow_core::{Core, Job, Step, Stopped};
use flow_orders::Run;
use flow_waits::Idlers;
use flux_library::Library;
use flux_model::FlowNo;
use flux_values::{List, Memory};

/// Lets a core's flows run on so many processors, where a call of a node takes so many ticks as the node costs.
pub fn simulate<L: Library>(
    core: Core<L>,
    costs: &List<u32>,
    processors: u32,
) -> Result<Simulated<L>, Stopped<L>>
    requires entries { core.entries ≡ [] }
    requires idle { (flow : ℕ) → begun_by core flow ≡ None }
    requires costs { AreCosts core.setup.program costs.now }
    requires some { 1 ≤ processors }
    requires most { processors ≤ 64 }
    requires sizes { sum_by (λ item. item_size (setup_in L.meaning core) (Some item)) core.setup.items
        ≤ 4194304 }
    ensures rule { IfOk result (λ done. IsByTheRule (setup_in L.meaning core) costs.now processors
        done.core.entries done.at done.runs done.ticks) }
    ensures end { IfOk result (λ done. GoesToEnd L.meaning core done.core) }
    ensures runs { IfOk result (λ done. IsOneRunACall costs.now (timed done.at done.core.entries)
        done.runs) }
    ensures few { IfOk result (λ done. NeverMoreRuns processors done.runs) }
    ensures busy { IfOk result (λ done. NeverIdleForNothing (setup_in L.meaning core) processors
        (timed done.at done.core.entries) done.runs done.ticks) }
    ensures bound { IfOk result (λ done. done.ticks ≤ sum_of_costs costs.now done.runs) }
    // The numbers stay small, so sums of them fit.
    ensures small { IfOk result (λ done. sum_of_costs costs.now done.runs < 9000000000) }
    ensures err { IfErr result (λ stopped. GoesOnLegally L.meaning core stopped.core) }
{
    // Asked for what it promises: that the journal is legal, and begun calls are next.
    let _journal = core.journal();
    let mut core = core;
    let mut clock = Clock::new(core.alloc(), processors);
    match all_ticks(&mut core, costs, &mut clock) {
        Ok(()) => Ok(simulated(core, clock)),
        Err(Memory) => Err(Stopped { core }),
    }
}

/// What was noted, with the last tick.
fn simulated<L: Library>(core: Core<L>, clock: Clock) -> Simulated<L>
    ensures core { result.core ≡ core }
    ensures at { result.at ≡ clock.at }
    ensures runs { result.runs ≡ clock.ended }
    ensures ticks { result.ticks ≡ last_tick clock.at }
{
    let ticks = clock.at.last().copied().unwrap_or(0);
    Simulated {
        core,
        at: clock.at,
        runs: clock.ended,
        ticks,
    }
}

/// From the first tick to the last: one after another, as long as calls run. The core keeps what it promises where memory is
/// short, too.
fn all_ticks<L: Library>(
    core: &mut Core<L>,
    costs: &List<u32>,
    clock: &mut Clock,
) -> Result<(), Memory>
    requires kept { IsKept L.meaning core.old }
    requires goes { Goes L.meaning core.old clock.old }
    requires last { AllLast costs.now clock.old }
    requires small { AreSmall L.meaning core.old costs.now clock.old.processors }
    ensures rests { OnOk result (Rests L.meaning core.new clock.new) }
    ensures over { OnOk result (clock.new.running ≡ []) }
    ensures last { OnOk result (AllLast costs.now clock.new) }
    ensures further { GoesFurther core.old core.new }
    ensures processors { clock.new.processors ≡ clock.old.processors }
    ensures kept { IsKept L.meaning core.new }
{
    let mut idlers = Idlers::new(core)?;
    settle(core, costs, clock, &mut idlers)?;
    let mut more = true;
    'ticks: while more {
        more = next_tick(core, costs, clock, &mut idlers)?;
    }
    Ok(())
}

/// Goes on to the next tick and does all of it. There is none where no call runs.
fn next_tick<L: Library>(
    core: &mut Core<L>,
    costs: &List<u32>,
    clock: &mut Clock,
    idlers: &mut Idlers,
) -> Result<bool, Memory>
    requires kept { IsKept L.meaning core.old }
    requires watched { Watches L.meaning core.old idlers.old }
    requires rests { Rests L.meaning core.old clock.old }
    requires last { AllLast costs.now clock.old }
    requires small { AreSmall L.meaning core.old costs.now clock.old.processors }
    ensures watched { OnOk result (Watches L.meaning core.new idlers.new) }
    ensures tick { IfOk result (IsNextTick L.meaning core.old core.new clock.new) }
    ensures last { OnOk result (AllLast costs.now clock.new) }
    ensures further { GoesFurther core.old core.new }
    ensures processors { clock.new.processors ≡ clock.old.processors }
    ensures kept { IsKept L.meaning core.new }
{
    let stopped = finish_next(core, clock, idlers)?;
    if stopped {
        settle(core, costs, clock, idlers)?;
        return Ok(true);
    }
    Ok(false)
}

/// Does all of a tick that comes after calls are finished.
fn settle<L: Library>(
    core: &mut Core<L>,
    costs: &List<u32>,
    clock: &mut Clock,
    idlers: &mut Idlers,
) -> Result<(), Memory>
    requires kept { IsKept L.meaning core.old }
    requires watched { Watches L.meaning core.old idlers.old }
    requires goes { Goes L.meaning core.old clock.old }
    requires last { AllLast costs.now clock.old }
    requires small { AreSmall L.meaning core.old costs.now clock.old.processors }
    ensures rests { OnOk result (Rests L.meaning core.new clock.new) }
    ensures last { OnOk result (AllLast costs.now clock.new) }
    ensures watched { OnOk result (Watches L.meaning core.new idlers.new) }
    ensures further { GoesFurther core.old core.new }
    ensures processors { clock.new.processors ≡ clock.old.processors }
    ensures kept { IsKept L.meaning core.new }
{
    go_on(core, clock, idlers)?;
    begin(core, costs, clock)
}

/// Lets the lowest flow that can go on without a call do so, again and again, until there is none.
fn go_on<L: Library>(
    core: &mut Core<L>,
    clock: &mut Clock,
    idlers: &mut Idlers,
) -> Result<(), Memory>
    requires kept { IsKept L.meaning core.old }
    requires watched { Watches L.meaning core.old idlers.old }
    requires goes { Goes L.meaning core.old clock.old }
    ensures goes { OnOk result (Goes L.meaning core.new clock.new) }
    ensures none { OnOk result (AllStandStill L.meaning core.new) }
    ensures watched { OnOk result (Watches L.meaning core.new idlers.new) }
    ensures ended { clock.new.ended ≡ clock.old.ended }
    ensures running { clock.new.running ≡ clock.old.running }
    ensures processors { clock.new.processors ≡ clock.old.processors }
    ensures further { GoesFurther core.old core.new }
    ensures kept { IsKept L.meaning core.new }
{
    while let Some(flow) = idlers.first(core, 0)? {
        go_one(core, clock, idlers, flow)?;
    }
    Ok(())
}

/// Lets a flow make its next event, or begin its call, which then waits.
fn go_one<L: Library>(
    core: &mut Core<L>,
    clock: &mut Clock,
    idlers: &mut Idlers,
    flow: FlowNo,
) -> Result<(), Memory>
    requires kept { IsKept L.meaning core.old }
    requires goes { Goes L.meaning core.old clock.old }
    requires first { IsFirstIdle L.meaning core.old 0 flow }
    requires watched { Watches L.meaning core.old idlers.old }
    requires ready { IsReady (beside idlers.old.pools idlers.old.aside) flow.0 }
    ensures goes { OnOk result (Goes L.meaning core.new clock.new) }
    ensures less { OnOk result (HasStarted core.old core.new) }
    ensures watched { OnOk result (Watches L.meaning core.new idlers.new) }
    ensures ended { clock.new.ended ≡ clock.old.ended }
    ensures running { clock.new.running ≡ clock.old.running }
    ensures processors { clock.new.processors ≡ clock.old.processors }
    ensures further { GoesFurther core.old core.new }
    ensures kept { IsKept L.meaning core.new }
{
    match core.step(flow)? {
        Step::Job(_) => clock.waiting.add(flow.0),
        Step::Went => note_event(core, clock, idlers),
        Step::Ended => Ok(()),
        Step::Calling => Ok(()),
        Step::Waits { .. } => Ok(()),
    }
}

/// Notes the tick of the last entry, and looks at the flows that it may have freed.
fn note_event<L: Library>(
    core: &Core<L>,
    clock: &mut Clock,
    idlers: &mut Idlers,
) -> Result<(), Memory>
    requires { Lags (setup_in L.meaning core.now) core.now.entries (beside idlers.old.pools idlers.old.aside) 0 }
    ensures noted { OnOk result (clock.new ≡ record clock.old { at = clock.old.at ++ clock.old.tick ∷ [] }) }
    ensures err { OnErr result (clock.new ≡ clock.old) }
    ensures covers { OnOk result (Covers (setup_in L.meaning core.now) core.now.entries
        (beside idlers.new.pools idlers.new.aside) 0) }
    ensures aside { idlers.new.aside ≡ idlers.old.aside }
{
    idlers.update(core, 0)?;
    clock.note()
}

/// Lets the calls of the lowest flows run, as long as a processor is free.
fn begin<L: Library>(core: &Core<L>, costs: &List<u32>, clock: &mut Clock) -> Result<(), Memory>
    requires kept { IsKept L.meaning core.now }
    requires begins { Begins L.meaning core.now clock.old }
    requires last { AllLast costs.now clock.old }
    requires small { AreSmall L.meaning core.now costs.now clock.old.processors }
    ensures rests { OnOk result (Rests L.meaning core.now clock.new) }
    ensures last { OnOk result (AllLast costs.now clock.new) }
    ensures processors { clock.new.processors ≡ clock.old.processors }
{
    while clock.running.len() < clock.processors as usize {
        let Some(number) = clock.waiting.take_lowest() else {
            return Ok(());
        };
        let run = run_of(core, costs, clock.tick, FlowNo(number))?;
        clock.running.add(run)?;
    }
    Ok(())
}

/// The run of a flow's begun call from a tick on.
fn run_of<L: Library>(
    core: &Core<L>,
    costs: &List<u32>,
    tick: u64,
    flow: FlowNo,
) -> Result<Run, Memory>
    requires kept { IsKept L.meaning core.now }
    requires begun { IsSome (begun_by core.now flow.0) }
    requires costs { AreCosts core.now.setup.program costs.now }
    requires tick { tick < 9000000000 }
    ensures { IfOk result (IsRunOf core.now costs.now tick flow) }
{
    let Some(job) = core.recall(flow)? else {
        unreachable!()
    };
    let node = job.node();
    let Some(cost) = costs.get(node.0 as usize) else {
        unreachable!()
    };
    Ok(Run {
        flow,
        node,
        start: tick,
        stop: tick + u64::from(*cost),
    })
}

/// Lets time pass to where the next call stops, and finishes all that stop then. There is none where none runs.
fn finish_next<L: Library>(
    core: &mut Core<L>,
    clock: &mut Clock,
    idlers: &mut Idlers,
) -> Result<bool, Memory>
    requires kept { IsKept L.meaning core.old }
    requires watched { Watches L.meaning core.old idlers.old }
    requires rests { Rests L.meaning core.old clock.old }
    ensures watched { OnOk result (Watches L.meaning core.new idlers.new) }
    ensures tick { IfOk result (IsFurtherTick L.meaning core.old core.new clock.new) }
    ensures last { (costs : List ℕ) → AllLast costs clock.old → OnOk result (AllLast costs clock.new) }
    ensures further { GoesFurther core.old core.new }
    ensures processors { clock.new.processors ≡ clock.old.processors }
    ensures kept { IsKept L.meaning core.new }
{
    let Some(run) = clock.running.take_next() else {
        return Ok(false);
    };
    clock.tick = run.stop;
    finish_run(core, idlers, run.flow)?;
    clock.note_end(run)?;
    finish_due(core, clock, idlers)?;
    Ok(true)
}

/// Finishes the calls that stop at this tick, those of the lowest flows first.
fn finish_due<L: Library>(
    core: &mut Core<L>,
    clock: &mut Clock,
    idlers: &mut Idlers,
) -> Result<(), Memory>
    requires kept { IsKept L.meaning core.old }
    requires watched { Watches L.meaning core.old idlers.old }
    requires finishes { Finishes L.meaning core.old clock.old }
    ensures watched { OnOk result (Watches L.meaning core.new idlers.new) }
    ensures goes { OnOk result (Goes L.meaning core.new clock.new) }
    ensures last { (costs : List ℕ) → AllLast costs clock.old → OnOk result (AllLast costs clock.new) }
    ensures further { GoesFurther core.old core.new }
    ensures processors { clock.new.processors ≡ clock.old.processors }
    ensures kept { IsKept L.meaning core.new }
{
    while let Some(run) = clock.running.take_due(clock.tick) {
        finish_run(core, idlers, run.flow)?;
        clock.note_end(run)?;
    }
    Ok(())
}

/// Runs a flow's begun call, finishes it, and looks at the flow again.
fn finish_run<L: Library>(
    core: &mut Core<L>,
    idlers: &mut Idlers,
    flow: FlowNo,
) -> Result<(), Memory>
    requires kept { IsKept L.meaning core.old }
    requires watched { Watches L.meaning core.old idlers.old }
    requires flow { flow.0 < length core.old.setup.items }
    requires begun { IsSome (begun_by core.old flow.0) }
    ensures watched { OnOk result (Watches L.meaning core.new idlers.new) }
    ensures ends { OnOk result (EndsBegun L.meaning core.old core.new flow) }
    ensures further { GoesFurther core.old core.new }
    ensures kept { IsKept L.meaning core.new }
{
    finish_call(core, flow)?;
    idlers.look_again(flow)
}

/// Runs a flow's begun call, and finishes it.
fn finish_call<L: Library>(core: &mut Core<L>, flow: FlowNo) -> Result<(), Memory>
    requires kept { IsKept L.meaning core.old }
    requires flow { flow.0 < length core.old.setup.items }
    requires begun { IsSome (begun_by core.old flow.0) }
    ensures ends { OnOk result (EndsBegun L.meaning core.old core.new flow) }
    ensures further { GoesFurther core.old core.new }
    ensures kept { IsKept L.meaning core.new }
{
    match core.recall(flow)? {
        Some(job) => finish_job(core, &job),
        None => Ok(()),
    }
}

/// Runs a begun call, and finishes it.
fn finish_job<L: Library>(core: &mut Core<L>, job: &Job<L>) -> Result<(), Memory>
    requires kept { IsKept L.meaning core.old }
    requires job { IsJobOf core.old job.now }
    ensures ends { OnOk result (EndsBegun L.meaning core.old core.new job.now.flow) }
    ensures further { GoesFurther core.old core.new }
    ensures kept { IsKept L.meaning core.new }
{
    let done = job.run(core.alloc())?;
    let _ = core.finish(&done)?;
    Ok(())
}
