//! Two seats at one hall.

ghost use Rattle.std.specs.Prelude.{◌≡◌};
ghost use Rattle.flow_core.specs.Runs.{GoesOn};

use flow_core::Core;
use flow_hall::{Hall, HallSeat, HallTurn};
use flux_model::FlowNo;
use nodes_counter::Counter;
use plain_journals::Given;
use std::alloc::Global;
use std::sync::Wait;
use trial_ends::Trouble;
use trial_programs::{FREE, open};

/// What two seats got.
#[derive(Clone, Copy)]
pub struct Tries {
    /// Whether the first one's flow made a step in its turn.
    pub stepped: bool,
    /// How many entries the second one found while the turn was out; None where it got no turn.
    pub while_out: Option<usize>,
    /// How many it found once the turn was given.
    pub once_given: Option<usize>,
}

/// Lets the one flow of a core make a step, and says whether it did.
fn step_only(core: &mut Core<Counter>) -> bool
    ensures { GoesOn core.old core.new }
{
    if core.flows() != 1 {
        return false;
    }
    core.step(FlowNo(0)).is_ok()
}

/// Tries once, and where it gets the turn gives it back as it was found, and says how many entries there were.
fn look(hall: &Hall<Counter>, seat: HallSeat<Counter>) -> (Option<usize>, HallSeat<Counter>)
    requires { seat.hall ≡ hall.now }
    ensures { result.1.hall ≡ hall.now }
{
    match hall.try_turn(seat) {
        Ok(turn) => {
            let entries = turn.core.journal().entries.len();
            (Some(entries), hall.give(turn))
        }
        Err(seat) => (None, seat),
    }
}

/// The flow makes a step in a turn; the other seat looks while the turn is out, and once it was given. Both seats come back.
fn look_beside(
    hall: &Hall<Counter>,
    turn: HallTurn<Counter>,
    other: HallSeat<Counter>,
) -> (Tries, HallSeat<Counter>, HallSeat<Counter>)
    requires turn { turn.held.hall ≡ hall.now }
    requires found { turn.core ≡ turn.held.found }
    requires other { other.hall ≡ hall.now }
    ensures one { result.1.hall ≡ hall.now }
    ensures other { result.2.hall ≡ hall.now }
{
    let mut turn = turn;
    let stepped = step_only(&mut turn.core);
    let (while_out, other) = look(hall, other);
    let one = hall.give(turn);
    let (once_given, other) = look(hall, other);
    let tries = Tries {
        stepped,
        while_out,
        once_given,
    };
    (tries, one, other)
}

/// The first seat tries for the turn, and the second looks beside it; they come back as one. None where it got no turn.
fn try_both(
    hall: &Hall<Counter>,
    one: HallSeat<Counter>,
    other: HallSeat<Counter>,
) -> (Option<Tries>, HallSeat<Counter>)
    requires one { one.hall ≡ hall.now }
    requires other { other.hall ≡ hall.now }
    ensures { result.1.hall ≡ hall.now }
{
    match hall.try_turn(one) {
        Ok(turn) => {
            let (tries, one, other) = look_beside(hall, turn, other);
            (Some(tries), hall.join(one, other))
        }
        Err(one) => (None, hall.join(one, other)),
    }
}

/// Two seats of a hall try, and the hall is closed.
fn tries_at<R: Wait>(rt: &R, hall: Hall<Counter>, seat: HallSeat<Counter>) -> Result<Tries, Trouble>
    requires { seat.hall ≡ hall }
{
    let (one, other) = hall.split(seat);
    let (tries, seat) = try_both(&hall, one, other);
    let _core = hall.close(rt, seat);
    tries.ok_or(Trouble::Wrong)
}

/// Two seats try at a hall with a core of one flow.
pub fn two_tries<R: Wait>(rt: &R, alloc: Global) -> Result<Tries, Trouble> {
    let given = [Given {
        source: 0,
        number: 5,
    }];
    let core = open(alloc, FREE, &given, Counter)?;
    tries_of(rt, alloc, core)
}

/// Two seats try at a hall with this core.
fn tries_of<R: Wait>(rt: &R, alloc: Global, core: Core<Counter>) -> Result<Tries, Trouble> {
    match Hall::new(alloc, core) {
        Ok((hall, seat)) => tries_at(rt, hall, seat),
        Err(_) => Err(Trouble::Memory),
    }
}
