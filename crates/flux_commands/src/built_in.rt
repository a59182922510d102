//! The library that the program is built with.

use nodes_all::All;
use nodes_joined::Joined;
use nodes_own::Own;

/// The nodes of the program, and then nodes of one's own.
pub type BuiltIn = Joined<All, Own>;
