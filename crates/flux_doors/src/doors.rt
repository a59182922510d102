//! Doors that links come in by.

ghost use Rattle.std.specs.Prelude.{◌≡◌, ℕ, ◌+◌, ◌<◌, [], ◌∷◌, IfOk, IfSome};
ghost use Rattle.std.specs.Option.{option_map};
ghost use Rattle.flux_outside.specs.Causes.{HasCause};
ghost use Rattle.flux_doors.specs.Doors.{opened_at, looked_at, first_link, left_behind, HasAcceptCause, out_after};
ghost use Rattle.flux_doors.specs.Seen.{SeenDoor, TakesBack, KeepsElse};

use crate::framing::Framing;
use crate::links::Link;
use flux_outside::Failed;

/// Fewer links than these are out where one more is accepted.
pub const OUT_LIMIT: usize = 4_096;

/// Gives links, batch by batch, and takes each back.
pub trait Door {
    type Link: Link + Drop + Send;

    /// What is seen of it. The first batch to come is the one that has begun.
    ghost seen: { Self → SeenDoor Self.Link };

    /// How many links are out: given, and not taken back.
    ghost out: { Self → ℕ };

    /// Says how the text of each link ends. It is called before the door is opened.
    fn expect(&mut self, framing: Framing)
        ensures kept { seen self.new ≡ seen self.old }
        ensures out { out self.new ≡ out self.old };

    /// Opens the door at a port.
    fn open(&mut self, port: u16) -> Result<(), Failed>
        ensures opened { (seen self.new).open_at ≡ opened_at port (seen self.old).open_at result }
        ensures to_come { (seen self.new).to_come ≡ (seen self.old).to_come }
        ensures back { (seen self.new).taken_back ≡ (seen self.old).taken_back }
        ensures out { out self.new ≡ out self.old }
        ensures late { (seen self.new).late ≡ (seen self.old).late }
        ensures cause { HasCause (seen self.old).faults (seen self.new).faults result };

    /// The next link. At the first accept of a batch None means that the door is closed; at a later one that no link
    /// is ready now.
    fn accept(&mut self, first: bool) -> Result<Option<Self::Link>, Failed>
        requires { out self.old < OUT_LIMIT }
        ensures given { IfSome (seen self.old).to_come (λ links. IfOk result (λ link. link ≡ first_link (looked_at first links))) }
        ensures left { (seen self.new).to_come ≡ option_map (left_behind first result) (seen self.old).to_come }
        ensures back { (seen self.new).taken_back ≡ (seen self.old).taken_back }
        ensures stays { (seen self.new).open_at ≡ (seen self.old).open_at }
        ensures out { out self.new ≡ out_after (out self.old) result }
        ensures cause { HasAcceptCause first (seen self.old) (seen self.new) result };

    /// Takes a link back.
    fn done(&mut self, link: Self::Link)
        requires { 0 < out self.old }
        ensures back { TakesBack (seen self.old).taken_back (seen self.new).taken_back (link ∷ []) }
        ensures kept { KeepsElse (seen self.old) (seen self.new) }
        ensures out { out self.new + 1 ≡ out self.old };
}
