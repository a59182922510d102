//! A script's journal is one of a rule of turns.

ghost use Rattle.rt_script.specs.Laws.{FollowsAreScheduled};

/// What a script's numbers lead to goes on by a rule: the listed flows in turn, and then the lowest that can go on.
pub fn follows_are_scheduled()
    ensures { FollowsAreScheduled }
{}
