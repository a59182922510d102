//! Calls of a table, each with what it answers.

ghost use Rattle.std.specs.Prelude.{◌≡◌, ◌≢◌, IsTrue, IsSome, OnOk};
ghost use Rattle.std.specs.List.{All};
ghost use Rattle.flux_table.specs.Tables.{holders_of, lines_of};
ghost use Rattle.flux_table.specs.Blockers.{MayTake, MayWait};
ghost use Rattle.call_trials.specs.Stood.{HaveStood};

use flow_model::Key;
use flux_model::{ClassNo, FlowNo, Mode, at_least};
use flux_table::{Table, Taken, Waiter};
use std::alloc::Global;
use std::process::Abort;
use std::test::Fail;

/// A call, with what it must answer.
#[derive(Clone, Copy)]
enum Step {
    Got(u32, Key, Mode),
    Busy(u32, Key, Mode, u32),
    Wait(u32, Key, Mode),
    Release(u32, Key),
    Holds(u32, Key, Option<Mode>),
}

/// Whether a waiter is no waiter of this flow, or waits for this key in this mode.
fn is_elsewhere(stood: &(Key, Waiter), flow: FlowNo, key: Key, mode: Mode) -> bool
    ensures { IsTrue result → stood.now.1.flow.0 ≡ flow.0 → (stood.now.0 ≡ key) × (stood.now.1.mode ≡ mode) }
{
    stood.1.flow != flow || (stood.0 == key && stood.1.mode == mode)
}

/// Whether a flow has stood nowhere, or only at this key in this mode.
fn stood_only_at(stood: &[(Key, Waiter)], flow: FlowNo, key: Key, mode: Mode) -> bool
    ensures { IsTrue result → All (λ s. s.1.flow.0 ≡ flow.0 → (s.0 ≡ key) × (s.1.mode ≡ mode)) stood.now }
{
    for other in stood {
        if !is_elsewhere(other, flow, key, mode) {
            return false;
        }
    }
    true
}

/// Whether a flow has stood nowhere.
fn stood_nowhere(stood: &[(Key, Waiter)], flow: FlowNo) -> bool
    ensures { IsTrue result → All (λ s. s.1.flow.0 ≢ flow.0) stood.now }
{
    for (_, waiter) in stood {
        if waiter.flow == flow {
            return false;
        }
    }
    true
}

/// Whether a flow may take a key in a mode.
fn may_take(table: &Table, stood: &[(Key, Waiter)], flow: FlowNo, key: Key, mode: Mode) -> bool
    requires { HaveStood table.now stood.now }
    ensures { IsTrue result → MayTake (holders_of table.now) (lines_of table.now) flow.0 key mode }
{
    if !stood_only_at(stood, flow, key, mode) {
        return false;
    }
    match table.holds(flow, key) {
        Some(own) => at_least(own, mode),
        None => true,
    }
}

/// Whether a flow may wait for a key.
fn may_wait(table: &Table, stood: &[(Key, Waiter)], flow: FlowNo, key: Key) -> bool
    requires { HaveStood table.now stood.now }
    ensures { IsTrue result → MayWait (holders_of table.now) (lines_of table.now) flow.0 key }
{
    stood_nowhere(stood, flow) && table.holds(flow, key).is_none()
}

/// Whether a flow holds a key.
fn is_held(table: &Table, flow: FlowNo, key: Key) -> bool
    ensures { IsTrue result → IsSome (holders_of table.now key flow.0) }
{
    table.holds(flow, key).is_some()
}

/// A try, which must be allowed and be answered so.
fn must_take(
    rt: &impl Abort,
    table: &mut Table,
    stood: &[(Key, Waiter)],
    step: (FlowNo, Key, Mode),
    wanted: Taken,
) -> Result<(), Fail>
    requires { HaveStood table.old stood.now }
    ensures { OnOk result (HaveStood table.new stood.now) }
{
    let (flow, key, mode) = step;
    assert!(rt; may_take(table, stood, flow, key, mode));
    let named = table.holder(flow, key, mode);
    let taken = table.try_take(flow, key, mode)?;
    assert!(rt; taken == wanted && named == holder_in(taken));
    Ok(())
}

fn holder_in(taken: Taken) -> Option<FlowNo> {
    match taken {
        Taken::Got => None,
        Taken::Busy { holder } => Some(holder),
    }
}

/// A wait, which must be allowed.
fn must_wait(
    rt: &impl Abort,
    table: &mut Table,
    stood: &mut Vec<(Key, Waiter)>,
    step: (FlowNo, Key, Mode),
) -> Result<(), Fail>
    requires { HaveStood table.old stood.old.items }
    ensures { OnOk result (HaveStood table.new stood.new.items) }
{
    let (flow, key, mode) = step;
    assert!(rt; may_wait(table, stood, flow, key));
    stood.push((key, Waiter { flow, mode }))?;
    table.wait(flow, key, mode)?;
    Ok(())
}

/// A release, which must be allowed.
fn must_release(rt: &impl Abort, table: &mut Table, flow: FlowNo, key: Key)
    ensures { lines_of table.new ≡ lines_of table.old }
{
    assert!(rt; is_held(table, flow, key));
    table.release(flow, key);
}

fn play(
    rt: &impl Abort,
    table: &mut Table,
    stood: &mut Vec<(Key, Waiter)>,
    step: Step,
) -> Result<(), Fail>
    requires { HaveStood table.old stood.old.items }
    ensures { OnOk result (HaveStood table.new stood.new.items) }
{
    match step {
        Step::Got(flow, key, mode) => {
            must_take(rt, table, stood, (FlowNo(flow), key, mode), Taken::Got)
        }
        Step::Busy(flow, key, mode, holder) => {
            let holder = FlowNo(holder);
            must_take(
                rt,
                table,
                stood,
                (FlowNo(flow), key, mode),
                Taken::Busy { holder },
            )
        }
        Step::Wait(flow, key, mode) => must_wait(rt, table, stood, (FlowNo(flow), key, mode)),
        Step::Release(flow, key) => {
            must_release(rt, table, FlowNo(flow), key);
            Ok(())
        }
        Step::Holds(flow, key, mode) => {
            assert!(rt; table.holds(FlowNo(flow), key) == mode);
            Ok(())
        }
    }
}

/// The one key of the calls.
const KEY: Key = Key {
    class: ClassNo(0),
    id: None,
};

fn mode_of(word: &str) -> Mode {
    if word == "r" {
        Mode::Reader
    } else {
        Mode::Writer
    }
}

/// A flow's number, which has one digit.
fn flow_of(word: &str) -> u32 {
    let digit = word.as_bytes().first().copied().unwrap_or(b'0');
    u32::from(digit.saturating_sub(b'0'))
}

/// `0 gets r` and `1 finds 0 r`, the answers to a try; `1 waits r`, `0 gives -`, and `0 has w` or `0 has -`.
fn step_of(words: &[&str]) -> Option<Step> {
    match words {
        [flow, "gets", mode] => Some(Step::Got(flow_of(flow), KEY, mode_of(mode))),
        [flow, "finds", holder, mode] => Some(Step::Busy(
            flow_of(flow),
            KEY,
            mode_of(mode),
            flow_of(holder),
        )),
        [flow, "waits", mode] => Some(Step::Wait(flow_of(flow), KEY, mode_of(mode))),
        [flow, "gives", _] => Some(Step::Release(flow_of(flow), KEY)),
        [flow, "has", "-"] => Some(Step::Holds(flow_of(flow), KEY, None)),
        [flow, "has", mode] => Some(Step::Holds(flow_of(flow), KEY, Some(mode_of(mode)))),
        _ => None,
    }
}

/// Plays the calls on a new table.
fn play_all(rt: &impl Abort, alloc: Global, steps: &str) -> Result<(), Fail> {
    let mut table = Table::new(alloc);
    let mut stood = Vec::new(alloc);
    for line in steps.split(", ") {
        let words: Vec<&str> = line.split(' ').collect(alloc)?;
        let Some(step) = step_of(words.as_slice()) else {
            return Err(Fail::from("no step"));
        };
        play(rt, &mut table, &mut stood, step)?;
    }
    Ok(())
}

/// A key is held until its last take is released.
const HELD: &str =
    "0 gets w, 1 finds 0 r, 0 gets r, 0 has w, 0 gives -, 0 has w, 1 finds 0 r, 0 gives -, 0 has -, 1 gets r";

/// Who comes first is served first: a reader waits after a writer that waits, and who holds the key passes.
const LINE: &str =
    "0 gets r, 1 finds 0 w, 1 waits w, 2 finds 1 r, 2 waits r, 2 finds 1 r, 0 gets r, 0 gives -, 1 finds 0 w, 0 gives -, 2 finds 1 r, 1 gets w, 2 finds 1 r, 1 gives -, 2 gets r";

/// The lowest blocker is named. Readers don't block readers, and those after a flow don't block it.
const LOWEST: &str =
    "5 gets r, 3 gets r, 7 finds 3 w, 7 waits w, 2 waits w, 1 waits r, 9 finds 2 r, 9 finds 1 w, 1 finds 2 r, 2 finds 3 w, 3 gives -, 7 finds 5 w, 5 gives -, 7 gets w, 7 gives -, 1 finds 2 r, 2 gets w";

#[test]
fn each_call_is_answered_so(rt: HostRuntime) -> Result<(), Fail> {
    for steps in [HELD, LINE, LOWEST] {
        play_all(&rt, rt.alloc(), steps)?;
    }
    Ok(())
}
