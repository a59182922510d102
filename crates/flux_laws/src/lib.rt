//! Laws of journals, over the definitions of `flux_model` and the laws of libraries, and nothing that runs.
//!
//! What is seen of a legal journal entry by entry is enough: that conflicting sections never overlap, and that no waits
//! form a circle, follows, since what nodes hold is closed and takes go up in the order of classes. So a legal journal
//! stays legal by each move, and is made of nothing else; where a flow is live, one can go on; and a call finds at its
//! end the cells that it was begun on. Each law is the contract of a function that does nothing.
#![tactic(auto)]

mod calls;
mod circles;
mod flows;
mod hoisted;
mod moves;
mod sections;
mod sizes;
mod takes;

pub use calls::{calls_stay, next_calls_fit};
pub use circles::waits_never_circle;
pub use flows::{
    blockers_are_live, live_flows_have_next, none_live_is_whole, not_all_blocked,
    some_flow_can_go_on,
};
pub use hoisted::locks_are_there;
pub use moves::{
    call_is_legal, entries_are_moves, event_is_legal, fronts_are_legal, moves_are_legal,
    nothing_is_legal, parts_make_legal, wait_is_legal,
};
pub use sections::sections_never_conflict;
pub use sizes::{growth_is_bounded, nodes_are_bounded, own_events_are_bounded, walks_are_bounded};
pub use takes::{drops_are_held, first_takes_are_greatest, standers_take_next, takes_go_up};
