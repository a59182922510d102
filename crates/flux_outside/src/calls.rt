//! Calls that are numbered, some of which are to fail.

ghost use Rattle.std.specs.Prelude.{◌≡◌, ◌↔◌, IsTrue};
ghost use Rattle.flux_outside.specs.Calls.{no_calls, one_more, IsToFail};

use flux_values::List;

/// How many calls were made, and the numbers, from 1, of those that are to fail.
pub struct Calls {
    fails: List<u64>,
    made: u64,
}

impl Drop for Calls {
    fn drop(self) {
        let Calls { fails, made } = self;
    }
}

impl Calls {
    pub fn new(fails: List<u64>) -> Calls
        ensures { result ≡ no_calls fails }
    {
        Calls { fails, made: 0 }
    }

    /// Counts a call, and tells whether it is to fail. The count stops at its type's end.
    pub fn count(&mut self) -> bool
        ensures counted { self.new ≡ one_more self.old }
        ensures fails { IsTrue result ↔ IsToFail self.old }
    {
        self.made = self.made.saturating_add(1);
        self.fails.as_slice().contains(&self.made)
    }
}
