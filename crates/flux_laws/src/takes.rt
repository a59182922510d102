//! Which takes and drops come next.

ghost use Rattle.flux_laws.specs.Takes.{TakesGoUp, DropsAreHeld, FirstTakesAreGreatest, StandersTakeNext};

/// A flow's next take is of a key that it holds in at least that mode, or of a class above those of all that it holds.
pub fn takes_go_up()
    ensures { TakesGoUp }
{}

/// A flow's next drop is of a key that it holds.
pub fn drops_are_held()
    ensures { DropsAreHeld }
{}

/// Of the takes of a key that a flow hasn't dropped, the first is in the greatest mode.
pub fn first_takes_are_greatest()
    ensures { FirstTakesAreGreatest }
{}

/// A flow that waits at a key in a mode takes it in that mode next.
pub fn standers_take_next()
    ensures { StandersTakeNext }
{}
