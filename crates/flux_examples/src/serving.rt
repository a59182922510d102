//! Serving by example: the contracts of functions that do nothing.

ghost use Rattle.flux_examples.specs.Doors.{DoorsFit, DoorsMisfit};
ghost use Rattle.flux_examples.specs.Links.{LinksFit, LinksMisfit};
ghost use Rattle.flux_examples.specs.Replies.{RepliesFit, RepliesMisfit};
ghost use Rattle.flux_examples.specs.RepliesAtOnce.{AtOnceFits, AtOnceMisfits};
ghost use Rattle.flux_examples.specs.Serving.{ServingFits, ServingMisfits};

/// What doors give, and which links make a batch.
pub fn doors_by_example()
    ensures fit { DoorsFit }
    ensures misfit { DoorsMisfit }
{}

/// What links send, and which items that makes.
pub fn links_by_example()
    ensures fit { LinksFit }
    ensures misfit { LinksMisfit }
{}

/// What links are written.
pub fn replies_by_example()
    ensures fit { RepliesFit }
    ensures misfit { RepliesMisfit }
{}

/// What links are written before their batch is over.
pub fn at_once_by_example()
    ensures fit { AtOnceFits }
    ensures misfit { AtOnceMisfits }
{}

/// Which programs are served, and how serving ends.
pub fn serving_by_example()
    ensures fit { ServingFits }
    ensures misfit { ServingMisfits }
{}
