//! The queue's rule, and what its calls tell.

use crate::views::View;
use crossbeam_queue::protocol::{Lesson, Outcome, Protocol, Split};

/// The queue's rule.
pub struct QueueRule;

impl Protocol<u32, View> for QueueRule {
    ghost use Rattle.flow_queue.specs.Rule.{IsQueue};
    ghost use Rattle.flow_queue.specs.declared.views.View.TheVariants.{Opening};

    ghost holds = { IsQueue };

    ghost first = { Opening 0 };
}

/// Putting the next number while the queue is opened.
pub struct Opens;

impl Outcome<u32, View> for Opens {
    ghost use Rattle.std.specs.Prelude.{◌≡◌};
    ghost use Rattle.flow_queue.specs.Rule.{opening_after};

    ghost then = { λ before number after. after ≡ opening_after before };
}

impl Lesson<u32, View> for Opens {
    ghost use Rattle.flow_queue.specs.Rule.{HasOpened};

    ghost fact = { HasOpened };
}

impl Split<View> for Opens {
    ghost use Rattle.flow_queue.specs.Rule.{opened};

    ghost left = { opened };

    ghost right = { opened };
}

/// Putting a number back.
pub struct Puts;

impl Outcome<u32, View> for Puts {
    ghost use Rattle.flow_queue.specs.Rule.{PutsNumber};

    ghost then = { PutsNumber };
}

impl Lesson<u32, View> for Puts {
    ghost use Rattle.flow_queue.specs.Rule.{HasRoom};

    ghost fact = { HasRoom };
}

/// Taking a number.
pub struct Takes;

impl Outcome<u32, View> for Takes {
    ghost use Rattle.flow_queue.specs.Rule.{TakesNumber};

    ghost then = { TakesNumber };
}

impl Lesson<u32, View> for Takes {
    ghost use Rattle.flow_queue.specs.Rule.{HasMoment};

    ghost fact = { HasMoment };
}

/// Splitting a pass.
pub struct Splits;

impl Split<View> for Splits {
    ghost use Rattle.flow_queue.specs.Rule.{split_left, split_right};

    ghost left = { split_left };

    ghost right = { split_right };
}
