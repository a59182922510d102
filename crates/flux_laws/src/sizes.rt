//! How many events flows have at most.

ghost use Rattle.flux_laws.specs.Growth.{NodesAreBounded, WalksAreBounded, OwnEventsAreBounded, GrowthIsBounded};

/// A node's walk, whatever its values and answers, has at most as many events as the node's expanded size.
pub fn nodes_are_bounded()
    ensures { NodesAreBounded }
{}

/// A flow's events, whatever its answers, are at most as many as its source's expanded size.
pub fn walks_are_bounded()
    ensures { WalksAreBounded }
{}

/// So are those of a flow that follows its walk.
pub fn own_events_are_bounded()
    ensures { OwnEventsAreBounded }
{}

/// A legal journal that goes on without waits has at most as many new entries as the sizes of the flows that were live
/// come to.
pub fn growth_is_bounded()
    ensures { GrowthIsBounded }
{}
