//! On how many processors a run is simulated, and what its nodes' calls cost.

ghost use Rattle.std.specs.Prelude.{◌<◌, ◌≤◌, ℕ, length};
ghost use Rattle.std.specs.List.{slice_index};

use flux_values::List;

/// The greatest number of processors.
pub const PROCESSOR_LIMIT: u32 = 64;

/// A call costs at most so many ticks.
pub const COST_LIMIT: u32 = 1_000;

/// At most so many costs are given.
pub const COSTS_LIMIT: usize = 4_096;

/// How many processors there are, from 1 to 64.
#[derive(Clone, Copy, PartialEq, Eq)]
pub struct Processors {
    pub count: u32,
    pub ghost some: { 1 ≤ count },
    pub ghost few: { count ≤ 64 },
}

/// What the calls of the first nodes cost, from 1 to 1,000 each.
pub struct Costs {
    pub list: List<u32>,
    pub ghost within: { (place : ℕ) → place < length list
        → (1 ≤ slice_index list place) × (slice_index list place ≤ 1000) },
}

impl Drop for Costs {
    fn drop(self) {
        let Costs { list } = self;
    }
}
