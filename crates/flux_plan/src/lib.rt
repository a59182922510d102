//! Plans: what a flow does, as flat instructions that all flows share, and one flow's place in them.
//!
//! `specs/Machine` says what each instruction does, one step of a machine with a stack; `specs/Runs` what a plan does
//! from its beginning, and when it is the plan of a walk.
#![tactic(auto)]

mod handlers;
mod locals;
mod machines;
mod moving;
mod plans;
mod stacks;
mod verified;

pub use locals::{Local, Next};
pub use moving::{advance, answered, has_next, next, take_answer};
pub use plans::{Arm, Instr, Plan, Segment, Segments};
pub use verified::VerifiedPlan;
