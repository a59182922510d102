//! Two libraries as one, whichever they are: a name goes to the first that has it.
//!
//! `Joined` is a library, with the laws of libraries from both, and it can be joined again. Its meaning is `joined`, of
//! `specs/Joined`, and `Has`, beside it, says that one library has all that another has. `proofs/Joining` has the lemmas by
//! which a joined library has what its parts have.
#![tactic(auto, unfolding(crate::specs::Joined::joined))]

mod joinable;
mod joined;

pub use joinable::Joinable;
pub use joined::Joined;
