//! Where a flow is live, one can go on.

ghost use Rattle.flux_laws.specs.Going.{BlockersAreLive, NotAllBlocked, SomeFlowCanGoOn, LiveFlowsHaveNext, NoneLiveIsWhole};

/// Whoever blocks a flow in a legal journal is live.
pub fn blockers_are_live()
    ensures { BlockersAreLive }
{}

/// In a legal journal where some flow is live, not all live flows are blocked.
pub fn not_all_blocked()
    ensures { NotAllBlocked }
{}

/// In a legal journal where some flow is live, there is a lowest live flow that isn't blocked.
pub fn some_flow_can_go_on()
    ensures { SomeFlowCanGoOn }
{}

/// In a numbered program without cycles, each live flow of a legal journal has a next event.
pub fn live_flows_have_next()
    ensures { LiveFlowsHaveNext }
{}

/// A legal journal in which no flow is live is whole.
pub fn none_live_is_whole()
    ensures { NoneLiveIsWhole }
{}
